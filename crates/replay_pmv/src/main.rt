//! Replays the vectors list, which has the Rust's answers, on `pmv`. The list's head says what its fields mean. One record of predictors is
//! lent from line to line, to the calls of `pmv::lent`; all other lines bring their own.
#![tactic(auto)]

mod components;
mod fields;
mod predictors;
mod record;
mod updates;
mod vectors;

use lists::{Cursor, Unread};
use pmv::predictors::Pmv;
use pmv::update::PmvUpdateContext;
use predictors::{Clearing, Setting};
use std::io;
use updates::ResettingByClass;
use vectors::{Decoding, Reconstructing};

/// A case by its kind.
fn judge(pmv: &mut Pmv, case: &mut Cursor<'_>) -> Result<bool, Unread> {
    match case.integer()? {
        1 => components::delta(case),
        2 => components::range(case),
        3 => components::reconstructing(case),
        4 => record::by_value::<Decoding>(case),
        5 => record::by_value::<Reconstructing>(case),
        6 => components::scaling(case),
        7 => record::by_value::<PmvUpdateContext>(case),
        8 => record::by_value::<ResettingByClass>(case),
        9 => record::by_value::<Setting>(case),
        10 => record::by_value::<Clearing>(case),
        11 => predictors::making(case),
        14 => record::lent::<Decoding>(pmv, case),
        15 => record::lent::<Reconstructing>(pmv, case),
        17 => record::lent::<PmvUpdateContext>(pmv, case),
        18 => record::lent::<ResettingByClass>(pmv, case),
        19 => record::lent::<Setting>(pmv, case),
        20 => record::lent::<Clearing>(pmv, case),
        _ => Err(Unread::Malformed),
    }
}

fn main(rt: HostRuntime) -> io::Result<()> {
    let mut pmv = Pmv::new();
    tally::replay(&rt, |case| judge(&mut pmv, case))
}
