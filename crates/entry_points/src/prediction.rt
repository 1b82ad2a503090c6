//! The card's C entry points for prediction. Kinds and flags are numbers; what is absent has a 0 beside it, and its other numbers are not read.
ghost use Rattle.std.specs.Prelude.{◌≡◌};
ghost use Rattle.entry_points.specs.Entries.{is_yes};

pub use crate::field_based::fozdrik_predict_field_macroblock;
pub use crate::frame_based::fozdrik_predict_frame_macroblock;
use pmv::kinds::flag_from_number;

/// Refusal: a number that is read has no meaning.
pub const NO_MEANING: u32 = 38;

/// Whether a flag's number is 1.
pub fn is_yes(number: u32) -> bool
    ensures { result ≡ is_yes number }
{
    flag_from_number(number) == Ok(true)
}
