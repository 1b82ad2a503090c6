//! Replays the forming list, which has the Rust's answers, on `forming_predictions`. The list's head says what its fields mean.
#![tactic(auto)]

mod plane;
mod predicting;
mod splitting;

use drawn::Plane;
use lists::{Cursor, Unread};
use std::alloc::Global;
use std::io;

/// A case by its kind. One that sets the plane agrees.
fn judge(alloc: Global, plane: &mut Plane, case: &mut Cursor<'_>) -> Result<bool, Unread> {
    match case.integer()? {
        1 => splitting::component(case),
        2 => splitting::vector(case),
        3 => splitting::pattern(case),
        4 => splitting::field_heights(case),
        5 => {
            *plane = plane::of_bytes(alloc, case)?;
            Ok(true)
        }
        6 => {
            *plane = plane::of_ramp(alloc, case)?;
            Ok(true)
        }
        7 => predicting::sample(plane, case),
        8 => predicting::predicted_sample(plane, case),
        9 => predicting::block(alloc, plane, case),
        _ => Err(Unread::Malformed),
    }
}

fn main(rt: HostRuntime) -> io::Result<()> {
    let alloc = rt.alloc();
    let mut plane = Plane::empty(alloc);
    tally::replay(&rt, |case| judge(alloc, &mut plane, case))
}
