//! Blocks of 8 or 16 columns that reach past an edge of a view.

ghost use Rattle.std.specs.Prelude.{◌≡◌, ℕ, ◌+◌, ◌*◌, ◌/◌, ◌%◌, ◌≤◌, ℤ, pos, ◌+ℤ◌, length};
ghost use Rattle.laws.specs.Tabulate.{tabulate};
ghost use Rattle.forming_predictions.specs.inner.Views.{picked_of, column_at, ColumnsFit, Eights};
ghost use Rattle.forming_predictions.specs.inner.Blocks.{block_at, picked_at};

use crate::inside::form_inside;
use crate::view::{Neighbour, Position, Sides, View, clamp_to};

/// The columns that a block reads, clamped.
fn clamp_columns(width: usize, x: Position, columns: &mut [usize])
    requires { length columns.old ≤ 17 }
    ensures { columns.new ≡ tabulate (length columns.old) (column_at width x.at) }
{
    for k in 0..columns.len() {
        columns[k] = clamp_to(width, x.further(k));
    }
}

/// The samples of a row in N columns.
fn pick_samples<const N: usize>(row: &[u8], columns: &[usize], out: &mut [u8])
    requires { ColumnsFit columns.now (length row.now) × (length columns.now ≡ N) × (length out.old ≡ N) }
    ensures { out.new ≡ tabulate N (picked_of row.now columns.now) }
{
    for k in 0..N {
        out[k] = row[columns[k]];
    }
}

/// The samples of `height` lines in N columns, from line y on.
#[tactic(auto, using(laws::proofs::Rows::rows_none, laws::proofs::Rows::rows_part, crate::proofs::ViewRows::clamped_length))]
fn fetch_lines<const N: usize>(
    view: View<'_>,
    columns: &[usize],
    y: Position,
    height: usize,
    out: &mut [u8],
)
    requires { ColumnsFit columns.now view.width × (length columns.now ≡ N) × (height ≤ 17) × (length out.old ≡ N * height) }
    ensures { out.new ≡ tabulate (N * height) (λ (k : ℕ). picked_at view.entry columns.now (y.at +ℤ pos (k / N)) (k % N)) }
{
    for r in 0..height {
        let o = r * N;
        let e = o + N;
        pick_samples::<N>(view.clamped_row(y.further(r)), columns, &mut out[o..e]);
    }
}

/// A block that reads N columns, clamped; `ROOM` is the most samples that it reads. They are copied, and nothing is outside there. Where no
/// sample is a mean, what is read is the block. The number of columns is fixed, so that the loops over them are unrolled. Most blocks don't
/// come here, and don't pay for the arrays.
#[inline(never)]
pub(crate) fn form_fetched<const N: usize, const ROOM: usize>(
    view: View<'_>,
    x: Position,
    y: Position,
    to: Neighbour,
    size: Sides,
    out: &mut [u8],
)
    requires columns_fit { (N ≡ size.width + to.right) × (ROOM ≡ N * 17) × Eights size.width }
    requires room { length out.old ≡ size.width * size.height }
    ensures { out.new ≡ block_at view.entry to x.at y.at size.width size.height }
{
    let mut columns = [0usize; N];
    clamp_columns(view.width, x, &mut columns);
    if to.right + to.below == 0 {
        fetch_lines::<N>(view, &columns, y, size.height, out);
        return;
    }
    let height = size.height + to.below;
    let n = N * height;
    let mut room = [0u8; ROOM]; // an array: no heap in the layers
    let whole = &mut room[..];
    let region = &mut whole[0..n];
    fetch_lines::<N>(view, &columns, y, height, region);
    let copied = View {
        samples: region,
        width: N,
        first: 0,
        step: 1,
        count: height,
    };
    form_inside(copied, 0, 0, to, size, out);
}
