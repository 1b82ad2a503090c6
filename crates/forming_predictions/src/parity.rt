//! The number of a field's parity: the top field's is 0, as its first row's, and the bottom field's 1.

ghost use Rattle.std.specs.Prelude.{◌≡◌, ok_or};
ghost use Rattle.forming_predictions.specs.Lines.{parity_row};
ghost use Rattle.forming_predictions.specs.Parities.{parity_from, no_meaning};

use crate::FieldParity;
use std::error::Error;
use std::fmt;

/// A number that none of the kinds has which it is to choose from.
#[derive(Clone, Copy, Debug, PartialEq, Eq)]
pub struct NoMeaning;

impl fmt::Display for NoMeaning {
    fn fmt<W: fmt::Write>(&self, f: &mut fmt::Formatter<W>) -> fmt::Result {
        f.write_str("the number has no meaning")
    }
}

impl Error for NoMeaning {}

impl From<FieldParity> for usize {
    ghost from_gives = { λ parity number. number ≡ parity_row parity };

    fn from(parity: FieldParity) -> usize {
        parity as usize
    }
}

impl TryFrom<u32> for FieldParity {
    type Error = NoMeaning;

    ghost try_from_gives = { λ number answer. answer ≡ ok_or (parity_from number) no_meaning };

    fn try_from(number: u32) -> Result<Self, NoMeaning> {
        match number {
            0 => Ok(FieldParity::Top),
            1 => Ok(FieldParity::Bottom),
            _ => Err(NoMeaning),
        }
    }
}
