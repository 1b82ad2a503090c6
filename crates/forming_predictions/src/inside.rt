//! Blocks whose reads all lie inside a view: nothing is clamped.
//! `LiesIn` stays in each function: as a struct's ghost field, a block takes up to 4.9 times the instructions lent, by value up to 2.6 % more.

ghost use Rattle.std.specs.Prelude.{◌≡◌, true, ◌+◌, ◌*◌, ◌≤◌, pos, length};
ghost use Rattle.laws.specs.Tabulate.{tabulate};
ghost use Rattle.forming_predictions.specs.inner.Views.{Eights, inside_of};
ghost use Rattle.forming_predictions.specs.inner.Blocks.{cell_at, block_at, LiesIn};

use crate::means::{any_row, form_row, two_row};
use crate::view::{Neighbour, Sides, View};

/// Whether n places from `position` on lie below the limit.
#[tactic(auto, unfolding(crate::specs::inner::Views::inside_of))]
pub(crate) fn is_inside(position: i32, n: usize, limit: usize) -> bool
    requires { n ≤ 17 }
    ensures { result ≡ inside_of position n limit }
{
    if position < 0 {
        return false;
    }
    position as usize + n <= limit
}

/// A row of a block from line y on: of 8 or 16 samples, or of any number.
#[tactic(auto, using(crate::proofs::ViewRows::inside_cells, laws::proofs::Tabulated::tab_ext))]
fn form_line<const EIGHTS: bool>(view: View<'_>, x: usize, y: usize, to: Neighbour, out: &mut [u8])
    requires { LiesIn view to x y (length out.old) 1 × (EIGHTS ≡ true → Eights (length out.old)) × (length out.old ≤ 16) }
    ensures { out.new ≡ tabulate (length out.old) (cell_at view.entry to (pos x) (pos y)) }
{
    let row = view.row(y);
    let below = view.row(y + to.below);
    if EIGHTS {
        form_row(row, below, x, to.right, to.below, out);
        return;
    }
    any_row(row, below, x, to.right, out);
}

/// A block of 8 or 16 columns, or of any number. This loop over rows and those of `fetch_lines` and `form_clamped` have three lines each: a
/// trait or a closure for what forms a row would take more.
fn form_lines<const EIGHTS: bool>(
    view: View<'_>,
    x: usize,
    y: usize,
    to: Neighbour,
    size: Sides,
    out: &mut [u8],
)
    requires { LiesIn view to x y size.width size.height × (EIGHTS ≡ true → Eights size.width) × (length out.old ≡ size.width * size.height) }
    ensures { out.new ≡ block_at view.entry to (pos x) (pos y) size.width size.height }
{
    for r in 0..size.height {
        let o = r * size.width;
        let e = o + size.width;
        form_line::<EIGHTS>(view, x, y + r, to, &mut out[o..e]);
    }
}

/// A block of 8 × 8, of two samples each. The number of rows is fixed, so that the loop is unrolled. A row's start is one stride after the
/// last one's: by `View::row`, which multiplies for each row, a block takes 21 to 44 instructions more.
fn two_square(view: View<'_>, x: usize, y: usize, to: Neighbour, out: &mut [u8])
    requires { LiesIn view to x y 8 8 × (to.right + to.below ≤ 1) × (length out.old ≡ 64) }
    ensures { out.new ≡ block_at view.entry to (pos x) (pos y) 8 8 }
{
    let stride = view.step * view.width;
    let gap = to.below * stride;
    let mut a = view.start(y);
    for r in 0..8 {
        let b = a + gap;
        let e = a + view.width;
        let f = b + view.width;
        let o = r * 8;
        let p = o + 8;
        two_row::<8>(
            &view.samples[a..e],
            &view.samples[b..f],
            x,
            to.right,
            &mut out[o..p],
        );
        a += stride;
    }
}

/// A block of 8 × 8, unless both steps are 1. Where both are 0, the compiler sees that the two samples are one, and copies.
fn form_square(view: View<'_>, x: usize, y: usize, to: Neighbour, out: &mut [u8])
    requires { LiesIn view to x y 8 8 × (to.right + to.below ≤ 1) × (length out.old ≡ 64) }
    ensures { out.new ≡ block_at view.entry to (pos x) (pos y) 8 8 }
{
    if to.right + to.below == 0 {
        let none = Neighbour { right: 0, below: 0 };
        two_square(view, x, y, none, out);
        return;
    }
    two_square(view, x, y, to, out);
}

/// A block of 8 or 16 columns.
pub(crate) fn form_inside(
    view: View<'_>,
    x: usize,
    y: usize,
    to: Neighbour,
    size: Sides,
    out: &mut [u8],
)
    requires { LiesIn view to x y size.width size.height × Eights size.width × (length out.old ≡ size.width * size.height) }
    ensures { out.new ≡ block_at view.entry to (pos x) (pos y) size.width size.height }
{
    if ((size.width == 8) & (size.height == 8)) & (to.right + to.below <= 1) {
        form_square(view, x, y, to, out);
        return;
    }
    form_lines::<true>(view, x, y, to, size, out);
}

/// A block of any number of columns.
#[inline(never)]
pub(crate) fn form_any(
    view: View<'_>,
    x: usize,
    y: usize,
    to: Neighbour,
    size: Sides,
    out: &mut [u8],
)
    requires { LiesIn view to x y size.width size.height × (length out.old ≡ size.width * size.height) }
    ensures { out.new ≡ block_at view.entry to (pos x) (pos y) size.width size.height }
{
    form_lines::<false>(view, x, y, to, size, out);
}
