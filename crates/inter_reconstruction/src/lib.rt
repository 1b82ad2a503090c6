//! ISO/IEC 13818-2, 7.6.4 to 7.6.7: the prediction of a macroblock of a frame picture, frame-based and field-based, from one reference frame or
//! two.
#![tactic(auto)]

/// Frames, and the sides of a macroblock's part in each of their planes.
pub mod frames;
/// The motion of a macroblock, and which directions it is predicted from.
pub mod motion;
/// Where a macroblock's parts lie.
mod area;
/// The block of one component.
mod blocks;
/// The three components of a macroblock.
mod components;
/// The prediction of a macroblock: the calls, with all that they refuse.
pub mod macroblock;
/// Copies of samples.
mod samples;
/// Placing a macroblock in a picture.
pub mod placing;
