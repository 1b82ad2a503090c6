//! Views of a plane's rows as lines, and what is read in them.

ghost use Rattle.std.specs.Prelude.{◌≡◌, ◌≤◌, ◌<◌, ℤ, pos, ◌+ℤ◌};
ghost use Rattle.forming_predictions.specs.Lines.{clamp_to};
ghost use Rattle.forming_predictions.specs.inner.Views.{ViewFits, SidesFit, Reach};

use crate::means::avg4;

/// The rows of a plane that are read as lines: row `first`, then every `step`-th, `count` of them. A frame and its fields differ in these
/// numbers alone, and a block that was copied out of one is a view too.
#[derive(Clone, Copy)]
pub(crate) struct View<'a> {
    pub(crate) samples: &'a [u8],
    pub(crate) width: usize,
    pub(crate) first: usize,
    pub(crate) step: usize,
    pub(crate) count: usize,
    ghost fits: { ViewFits samples.now width first step count },
}

/// The steps to the right neighbour and to the one below that are read too. Where a step is 0, samples count twice or four times, which
/// gives the mean of fewer.
#[derive(Clone, Copy)]
pub(crate) struct Neighbour {
    pub(crate) right: usize,
    pub(crate) below: usize,
    ghost near: { (right ≤ 1) × (below ≤ 1) },
}

/// The sides of a block that is formed: 1 to 16.
#[derive(Clone, Copy)]
pub(crate) struct Sides {
    pub(crate) width: usize,
    pub(crate) height: usize,
    ghost fits: { SidesFit width height },
}

/// A coordinate from which a block's steps can be made.
#[derive(Clone, Copy)]
pub(crate) struct Position {
    pub(crate) at: i32,
    ghost reach: { Reach at },
}

impl Position {
    /// The coordinate n further.
    pub(crate) fn further(self, n: usize) -> i32
        requires { n ≤ 17 }
        ensures { result ≡ self.at +ℤ pos n }
    {
        self.at + n as i32
    }
}

/// A coordinate, moved into 0..n - 1.
#[tactic(auto, unfolding(crate::specs::Lines::clamp_to))]
pub(crate) fn clamp_to(n: usize, v: i32) -> usize
    ensures { result ≡ clamp_to n v }
{
    if v < 0 {
        return 0;
    }
    let u = v as usize;
    if u < n {
        return u;
    }
    if n == 0 {
        return 0;
    }
    n - 1
}

impl<'a> View<'a> {
    ghost use Rattle.forming_predictions.specs.inner.Views.{line_start};
    ghost use Rattle.forming_predictions.specs.inner.Blocks.{row_at, read, formed_at};

    /// The place of a line's first sample.
    pub(crate) fn start(self, line: usize) -> usize
        requires { line < self.count }
        ensures { result ≡ line_start self.entry.first self.entry.step self.entry.width line }
    {
        (self.first + self.step * line) * self.width
    }

    /// The row of a line.
    pub(crate) fn row(self, line: usize) -> &'a [u8]
        requires { line < self.count }
        ensures { result.now ≡ row_at self.entry line }
    {
        let start = self.start(line);
        let end = start + self.width;
        &self.samples[start..end]
    }

    /// The row of the line that y is clamped to.
    #[tactic(auto, using(crate::proofs::Reading::line_lt))]
    pub(crate) fn clamped_row(self, y: i32) -> &'a [u8]
        ensures { result.now ≡ row_at self.entry (clamp_to self.entry.count y) }
    {
        self.row(clamp_to(self.count, y))
    }

    /// The sample at (x, y), clamped.
    #[tactic(auto, using(crate::proofs::Reading::line_lt, crate::proofs::ViewRows::clamped_length, crate::proofs::ViewRows::clamped_read))]
    pub(crate) fn sample(self, x: i32, y: i32) -> u8
        ensures { result ≡ read self.entry x y }
    {
        self.clamped_row(y)[clamp_to(self.width, x)]
    }

    /// One predicted sample.
    #[tactic(auto, unfolding(crate::specs::inner::Views::spread))]
    pub(crate) fn form_sample(self, x: Position, y: Position, to: Neighbour) -> u8
        ensures { result ≡ formed_at self.entry to x.at y.at }
    {
        let right = x.further(to.right);
        let below = y.further(to.below);
        avg4(
            self.sample(x.at, y.at),
            self.sample(right, y.at),
            self.sample(x.at, below),
            self.sample(right, below),
        )
    }
}
