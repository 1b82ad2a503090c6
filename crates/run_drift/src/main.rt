//! Runs three lists of steps by the calls that predict and place, and beside them with every mean exact, and prints how far rounding has taken
//! the samples of each picture: the drift figure, and how tight it is. 64 bits end at picture 18; the theorem (crate drift) has no end.
//!
//! The functions promise next to nothing, and nearly all take every input: what may be absent is an Option, and sums and products are kept
//! from overflowing by remainders and by wrapping sums, which change nothing for the pictures at hand.
#![tactic(auto)]

mod calls;
mod distances;
mod exact;
mod outcomes;
mod pictures;
mod steps;

use distances::Row;
use drawn::Draws;
use outcomes::Counts;
use pictures::{Component, Pictures};
use std::alloc::Global;
use std::io;
use steps::Step;

/// How many steps the drawn list has.
const DRAWN: usize = 6000;

/// Pictures 1 to 18, each of nine macroblocks.
const EVERY_CELL: usize = 162;

/// Takes the steps of a list, and reports.
fn run<F: FnMut(usize) -> Step>(
    rt: &impl Print,
    pictures: &mut Pictures,
    count: usize,
    mut step: F,
) -> io::Result<()>
    requires { F.IsAlwaysCallable step }
{
    let mut counts = Counts::new();
    for k in 0..count {
        let step = step(k);
        let answered = calls::take(&mut pictures.rounded, step);
        exact::take(&mut pictures.exact, step);
        counts.count(answered, step.by_table());
    }
    println!(rt; "{count} steps: {counts}")?;
    println!(rt; "picture        above  figure        below  figure")?;
    for (rounded, exact) in pictures.rounded.iter().zip(pictures.exact.iter()) {
        let row = Row { rounded, exact };
        println!(rt; "{row}")?;
    }
    Ok(())
}

/// Changes luminance sample (x, y) of picture 18 by hand, modulo 256, where it is as far off as the figure allows, so that the comparison
/// is seen to fail.
fn spoil(rt: &impl Print, pictures: &mut Pictures, x: u8, y: u8, by: u8) -> io::Result<()> {
    let (Some(rounded), Some(exact)) = (pictures.rounded.last_mut(), pictures.exact.last()) else {
        return Ok(());
    };
    let place = usize::from(y) * usize::from(Component::Y.side()) + usize::from(x);
    if let Some(byte) = rounded.y.get_mut(place) {
        *byte = byte.wrapping_add(by);
    }
    let row = Row { rounded, exact };
    println!(rt; "{row}")
}

fn write_head(rt: &impl Print) -> io::Result<()> {
    println!(rt;
        "How far rounding takes samples, in grey steps: of each picture the largest distance above and the largest below"
    )?;
    println!(rt;
        "the unrounded samples, over all three planes, and the figure of drift_bound. Distances are rounded up to a"
    )?;
    println!(rt;
        "millionth; the signs between them and the figure compare the exact numbers. Pictures of 48 x 48, 4:2:0."
    )?;
    println!(rt; "64 bits end at picture 18; the theorem has no end.")
}

/// Attains the figure above: for each picture a half is rounded up in both directions, and again in the mean of both.
fn run_brighter(rt: &impl Print, alloc: Global) -> io::Result<()> {
    println!(rt;
        "\nlist 1, brighter: each macroblock from the picture before, forward by (0, 1) and backward by (0, -1)"
    )?;
    println!(rt; "sample (x, y) of picture 0's luminance is y")?;
    let mut drawn = pictures::drawn(alloc)?;
    pictures::set_first_luminance(&mut drawn, |_, y| y);
    let mut pictures = Pictures::new(alloc, drawn)?;
    run(rt, &mut pictures, EVERY_CELL, steps::brighter)?;
    println!(rt;
        "sample (24, 24) of picture 18 made one grey step brighter by hand, which is too bright:"
    )?;
    spoil(rt, &mut pictures, 24, 24, 1)
}

/// d (d - 1) / 2 for d = x - y, limited to a byte.
fn curved(x: u8, y: u8) -> u8 {
    let m = if x > y { x - y - 1 } else { y - x };
    let m = u32::from(m);
    (m * (m + 1) / 2).min(255) as u8
}

/// Attains the figure below: for each picture the mean of four samples loses a quarter.
fn run_unchanged(rt: &impl Print, alloc: Global) -> io::Result<()> {
    println!(rt;
        "\nlist 2, unchanged: each macroblock from the picture before, forward by (1, 1)"
    )?;
    println!(rt;
        "sample (x, y) of picture 0's luminance is d (d - 1) / 2 for d = x - y, or 255 where that is more"
    )?;
    let mut drawn = pictures::drawn(alloc)?;
    pictures::set_first_luminance(&mut drawn, curved);
    let mut pictures = Pictures::new(alloc, drawn)?;
    run(rt, &mut pictures, EVERY_CELL, steps::unchanged)?;
    println!(rt;
        "sample (5, 0) of picture 18 made one grey step darker by hand, which is too dark:"
    )?;
    spoil(rt, &mut pictures, 5, 0, 255)
}

fn run_drawn(rt: &impl Print, alloc: Global) -> io::Result<()> {
    println!(rt; "\nlist 3, drawn: drawn steps on drawn pictures, in any order, some refused")?;
    let mut pictures = Pictures::new(alloc, pictures::drawn(alloc)?)?;
    let mut numbers = Draws::from_seed(4);
    run(rt, &mut pictures, DRAWN, |_| steps::drawn(&mut numbers))
}

fn main(rt: HostRuntime) -> io::Result<()> {
    let alloc = rt.alloc();
    write_head(&rt)?;
    run_brighter(&rt, alloc)?;
    run_unchanged(&rt, alloc)?;
    run_drawn(&rt, alloc)
}
