//! How far the bytes lie from the unrounded samples, and what is printed of it.
use crate::pictures::{Component, Picture, scaled, unit};
use drift::drift_bound;
use std::cmp::Ordering;
use std::fmt;

/// The largest distances of a picture in units: 8 to the power n of them to a grey step.
#[derive(Clone, Copy)]
struct Distances {
    above: u64,
    below: u64,
}

/// Over all three planes of a picture.
fn largest(rounded: &Picture<u8>, exact: &Picture<u64>) -> Distances {
    let mut above = 0;
    let mut below = 0;
    for component in Component::ALL {
        let samples = rounded.plane(component).iter().zip(exact.plane(component));
        for (byte, unrounded) in samples {
            let byte = scaled(u64::from(*byte), rounded.number);
            above = above.max(byte.saturating_sub(*unrounded));
            below = below.max(unrounded.saturating_sub(byte));
        }
    }
    Distances { above, below }
}

/// A distance in picture n, and its figure in quarters of a grey step.
#[derive(Clone, Copy)]
struct Against {
    distance: u64,
    n: u32,
    quarters: u64,
}

impl Against {
    /// Millionths of a grey step, rounded up.
    fn millionths(&self) -> u128 {
        (u128::from(self.distance) * 1000000).div_ceil(u128::from(unit(self.n)))
    }

    /// Exactly, as multiples of a quarter unit. No distance reaches 2 to the power 62.
    fn compared(&self) -> Ordering {
        let is = self.distance % 4611686018427387904 * 4;
        is.cmp(&scaled(self.quarters, self.n))
    }
}

impl fmt::Display for Against {
    fn fmt<W: fmt::Write>(&self, f: &mut fmt::Formatter<W>) -> fmt::Result {
        let millionths = self.millionths();
        let sign = match self.compared() {
            Ordering::Less => '<',
            Ordering::Equal => '=',
            Ordering::Greater => '>',
        };
        write!(
            f,
            "{:3}.{:06} {sign}{:3}.{:02}",
            millionths / 1000000,
            millionths % 1000000,
            self.quarters / 4,
            self.quarters % 4 * 25,
        )
    }
}

/// The row of a picture: its largest distances above and below, and the figure.
#[derive(Clone, Copy)]
pub(crate) struct Row<'a> {
    pub(crate) rounded: &'a Picture<u8>,
    pub(crate) exact: &'a Picture<u64>,
}

impl fmt::Display for Row<'_> {
    fn fmt<W: fmt::Write>(&self, f: &mut fmt::Formatter<W>) -> fmt::Result {
        let n = self.rounded.number;
        let distances = largest(self.rounded, self.exact);
        let figure = drift_bound(n);
        let above = Against {
            distance: distances.above,
            n,
            quarters: figure.above,
        };
        let below = Against {
            distance: distances.below,
            n,
            quarters: figure.below,
        };
        write!(f, "    {n:3}   {above}   {below}")
    }
}
