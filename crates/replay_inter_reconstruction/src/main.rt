//! Replays the macroblocks list, which has the Rust's answers, on `inter_reconstruction`. The list's head says what its fields mean.
#![tactic(auto)]

mod fields;
mod predicting;

use drawn::References;
use lists::{Cursor, Unread};
use std::alloc::Global;
use std::io;

/// No list has more samples of a reference.
const MOST_SAMPLES: usize = 65536;

/// A case by its kind. One that sets the planes of a reference agrees.
fn judge(
    alloc: Global,
    references: &mut References,
    case: &mut Cursor<'_>,
) -> Result<bool, Unread> {
    match case.integer()? {
        1 => {
            references.set(alloc, case, MOST_SAMPLES)?;
            Ok(true)
        }
        2 => predicting::macroblock(alloc, references, case, fields::frame_direction),
        3 => predicting::macroblock(alloc, references, case, fields::field_direction),
        _ => Err(Unread::Malformed),
    }
}

fn main(rt: HostRuntime) -> io::Result<()> {
    let alloc = rt.alloc();
    let mut references = References::empty(alloc);
    tally::replay(&rt, |case| judge(alloc, &mut references, case))
}
