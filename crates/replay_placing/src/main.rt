//! Replays the placing list on `place_macroblock`. Its answers are those of an account of placing by the words of docs/SCOPE.md, since the Rust
//! has no such call. The list's head says what its fields mean.
#![tactic(auto)]

mod placing;

use lists::{Cursor, Unread};
use std::alloc::Global;
use std::io;

/// A case, of which there is one kind.
fn judge(alloc: Global, case: &mut Cursor<'_>) -> Result<bool, Unread> {
    match case.integer()? {
        1 => placing::macroblock(alloc, case),
        _ => Err(Unread::Malformed),
    }
}

fn main(rt: HostRuntime) -> io::Result<()> {
    let alloc = rt.alloc();
    tally::replay(&rt, |case| judge(alloc, case))
}
