//! Replays the list of the four C entry points on `entry_points`. The list's head says what its fields mean.
#![tactic(auto)]

mod prediction;
mod vectors;

use drawn::References;
use lists::{Cursor, Unread};
use std::alloc::Global;
use std::io;

/// No list has more samples of a reference.
const MOST_SAMPLES: usize = 32768;

/// A case by its kind. One that sets the planes of a reference agrees.
fn judge(
    alloc: Global,
    references: &mut References,
    case: &mut Cursor<'_>,
) -> Result<bool, Unread> {
    match case.integer()? {
        1 => {
            references.set(alloc, case, MOST_SAMPLES)?;
            Ok(true)
        }
        2 => vectors::vector(alloc, case),
        3 => vectors::update(alloc, case),
        4 => prediction::frame(alloc, references, case),
        5 => prediction::field(alloc, references, case),
        _ => Err(Unread::Malformed),
    }
}

fn main(rt: HostRuntime) -> io::Result<()> {
    let alloc = rt.alloc();
    let mut references = References::empty(alloc);
    tally::replay(&rt, |case| judge(alloc, &mut references, case))
}
