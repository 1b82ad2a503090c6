//! Blocks of other widths than 8 and 16 that reach past an edge of a view.

ghost use Rattle.std.specs.Prelude.{◌≡◌, ℕ, ◌*◌, ◌≤◌, ◌<◌, pos, ◌+ℤ◌, length, get_or};
ghost use Rattle.laws.specs.Tabulate.{tabulate};
ghost use Rattle.forming_predictions.specs.inner.Views.{clamped_of, column_at};
ghost use Rattle.forming_predictions.specs.inner.Blocks.{cell_at, block_at};

use crate::means::avg4;
use crate::view::{Neighbour, Position, Sides, View, clamp_to};

/// A predicted sample of two rows of the plane, in the columns that x + k and its neighbour are clamped to.
#[tactic(auto, using(crate::proofs::Lines::clamp_lt))]
fn clamped_sample(row: &[u8], below: &[u8], x: Position, k: usize, dx: usize) -> u8
    requires { (0 < length row.now) × (length below.now ≡ length row.now) × (k < 16) × (dx ≤ 1) }
    ensures { result ≡ clamped_of row.now below.now (x.at +ℤ pos k) dx }
{
    let here = clamp_to(row.len(), x.further(k));
    let right = clamp_to(row.len(), x.further(k + dx));
    avg4(row[here], row[right], below[here], below[right])
}

/// A row of them.
fn clamped_row(row: &[u8], below: &[u8], x: Position, dx: usize, out: &mut [u8])
    requires { (0 < length row.now) × (length below.now ≡ length row.now) × (dx ≤ 1) × (length out.old ≤ 16) }
    ensures { out.new ≡ tabulate (length out.old) (λ (k : ℕ). clamped_of row.now below.now (x.at +ℤ pos k) dx) }
{
    for k in 0..out.len() {
        out[k] = clamped_sample(row, below, x, k, dx);
    }
}

/// A row of samples as they are, in the columns that x is clamped to.
fn clamped_copy(row: &[u8], x: Position, out: &mut [u8])
    requires { (0 < length row.now) × (length out.old ≤ 16) }
    ensures { out.new ≡ tabulate (length out.old) (λ (k : ℕ). get_or row.now (column_at (length row.now) x.at k) 0) }
{
    for k in 0..out.len() {
        out[k] = row[clamp_to(row.len(), x.further(k))];
    }
}

/// Row r of a block past an edge, out of the rows that the two lines are clamped to.
#[tactic(auto, using(crate::proofs::ViewRows::clamped_some, crate::proofs::ViewRows::clamped_same))]
fn clamped_line(view: View<'_>, x: Position, y: Position, r: usize, to: Neighbour, out: &mut [u8])
    requires { (r < 16) × (length out.old ≤ 16) }
    ensures { out.new ≡ tabulate (length out.old) (cell_at view.entry to x.at (y.at +ℤ pos r)) }
{
    let row = view.clamped_row(y.further(r));
    if to.right + to.below == 0 {
        clamped_copy(row, x, out);
        return;
    }
    let below = view.clamped_row(y.further(r + to.below));
    clamped_row(row, below, x, to.right, out);
}

/// A block that reaches past an edge, out of the plane's rows: a small one takes less time than room for a copy of what it reads.
#[inline(never)]
pub(crate) fn form_clamped(
    view: View<'_>,
    x: Position,
    y: Position,
    to: Neighbour,
    size: Sides,
    out: &mut [u8],
)
    requires { length out.old ≡ size.width * size.height }
    ensures { out.new ≡ block_at view.entry to x.at y.at size.width size.height }
{
    for r in 0..size.height {
        let o = r * size.width;
        let e = o + size.width;
        clamped_line(view, x, y, r, to, &mut out[o..e]);
    }
}
