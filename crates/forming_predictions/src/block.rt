//! A block of a view: where a vector leads, and the form for its size and place.

ghost use Rattle.std.specs.Prelude.{◌≡◌, ◌*◌, ◌+ℤ◌, length};
ghost use Rattle.laws.proofs.Bounded.{Within};
ghost use Rattle.forming_predictions.specs.Splitting.{floor_half, half_flag};
ghost use Rattle.forming_predictions.specs.inner.Views.{bit_of};
ghost use Rattle.forming_predictions.specs.inner.Blocks.{block_at};

use crate::edges::form_fetched;
use crate::inside::{form_any, form_inside, is_inside};
use crate::narrow::form_clamped;
use crate::split_component;
use crate::view::{Neighbour, Position, Sides, View};

/// A block from (x, y) on.
#[tactic(auto, unfolding(crate::specs::inner::Views::inside_of))]
pub(crate) fn form(
    view: View<'_>,
    x: Position,
    y: Position,
    to: Neighbour,
    size: Sides,
    out: &mut [u8],
)
    requires { length out.old ≡ size.width * size.height }
    ensures { out.new ≡ block_at view.entry to x.at y.at size.width size.height }
{
    let columns = is_inside(x.at, to.right + size.width, view.width);
    let inside = columns & is_inside(y.at, to.below + size.height, view.count);
    match (inside, size.width, to.right) {
        (true, 8 | 16, _) => form_inside(view, x.at as usize, y.at as usize, to, size, out),
        (true, _, _) => form_any(view, x.at as usize, y.at as usize, to, size, out),
        (false, 8, 0) => form_fetched::<8, 136>(view, x, y, to, size, out),
        (false, 8, _) => form_fetched::<9, 153>(view, x, y, to, size, out),
        (false, 16, 0) => form_fetched::<16, 272>(view, x, y, to, size, out),
        (false, 16, _) => form_fetched::<17, 289>(view, x, y, to, size, out),
        (false, _, _) => form_clamped(view, x, y, to, size, out),
    }
}

/// A position, moved by the whole part of a vector.
pub(crate) fn moved(position: i32, vector: i32) -> Position
    requires { Within 32782 position }
    ensures { result.at ≡ position +ℤ floor_half vector }
{
    let split = split_component(vector);
    let at = position + split.int_vec;
    Position { at: at }
}

/// The neighbour that the halves of a vector ask for.
pub(crate) fn neighbour(horizontal: i32, vertical: i32) -> Neighbour
    ensures { (result.right ≡ bit_of (half_flag horizontal)) × (result.below ≡ bit_of (half_flag vertical)) }
{
    Neighbour {
        right: split_component(horizontal).half_flag as usize,
        below: split_component(vertical).half_flag as usize,
    }
}
