//! Replays the averaging list, which has the Rust's answers, on `combine_predictions`. The list's head says what its fields mean.
#![tactic(auto)]

use combine_predictions::PredictionDirection;
use lists::{Cursor, Unread};
use std::alloc::Global;
use std::io;
use tally::{LONGEST, Lent, number_of};

/// `1 FORWARD BACKWARD FILL LENGTH ANSWER AFTER`, from FORWARD on: whether number and output are as listed, and what is behind the
/// output as it was.
fn averaging(alloc: Global, case: &mut Cursor<'_>) -> Result<bool, Unread> {
    let forward = case.bytes(alloc, LONGEST)?;
    let backward = case.bytes(alloc, LONGEST)?;
    let mut out = Lent::filled(alloc, case)?;
    let answer = case.integer()?;
    let after = case.bytes(alloc, LONGEST)?;
    let given = combine_predictions::average_predictions(&forward, &backward, out.lent());
    Ok(number_of(given) == answer && out.holds(&after))
}

/// The direction with this number in the order of the Rust's enum. It has no other one that this call takes.
fn direction(number: i64) -> Result<PredictionDirection, Unread> {
    match number {
        0 => Ok(PredictionDirection::Forward),
        1 => Ok(PredictionDirection::Backward),
        3 => Ok(PredictionDirection::Skipped),
        _ => Err(Unread::Malformed),
    }
}

/// `2 DIRECTION FORWARD BACKWARD RESULT`, from DIRECTION on.
fn choosing(alloc: Global, case: &mut Cursor<'_>) -> Result<bool, Unread> {
    let direction = direction(case.integer()?)?;
    let forward = case.bytes(alloc, LONGEST)?;
    let backward = case.bytes(alloc, LONGEST)?;
    let listed = case.bytes(alloc, LONGEST)?;
    let chosen = combine_predictions::combine_directional_predictions(
        direction, &forward, &backward,
    );
    Ok(chosen == listed.as_slice())
}

/// A case by its kind.
fn judge(alloc: Global, case: &mut Cursor<'_>) -> Result<bool, Unread> {
    match case.integer()? {
        1 => averaging(alloc, case),
        2 => choosing(alloc, case),
        _ => Err(Unread::Malformed),
    }
}

fn main(rt: HostRuntime) -> io::Result<()> {
    let alloc = rt.alloc();
    tally::replay(&rt, |case| judge(alloc, case))
}
