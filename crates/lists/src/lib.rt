//! Reads lists of cases: text with a case to a line, words between blanks, decimal numbers, hexadecimal byte strings, and comments
//! that begin with a number sign.
#![tactic(auto)]

mod byte_strings;
mod class;
mod cursor;
mod numbers;
#[cfg(test)]
mod tests;
mod unread;
mod words;

pub use byte_strings::{fill, ramp};
pub use cursor::{Cursor, Line};
pub use unread::Unread;
