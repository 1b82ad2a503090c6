//! What the calls refuse.

ghost use Rattle.std.specs.Prelude.{◌≡◌, not};
ghost use Rattle.combine_predictions.specs.Refusals.{cause, answered};
ghost use Rattle.forming_predictions.specs.declared.FormingRefusal.TheVariants.{OutsideDomain};
ghost use Rattle.forming_predictions.specs.Refusals.{plane_fits, position_fits, block_side_fits};
ghost use Rattle.forming_predictions.specs.Planes.{count_of, plane_refused, sample_refused, block_refused};

use crate::{
    BlockSize, FIRST_POSITION, FormingRefusal, LARGEST_BLOCK_SIDE, LAST_BLOCK, LAST_SAMPLE,
    ReferencePlane, plane_fits,
};

/// `&` and not `&&`: both tests are made, and there is one path.
#[tactic(auto, unfolding(crate::specs::Refusals::position_fits))]
fn position_fits(last: i32, position: i32) -> bool
    ensures { result ≡ position_fits last position }
{
    (FIRST_POSITION <= position) & (position <= last)
}

#[tactic(auto, unfolding(crate::specs::Refusals::block_side_fits))]
fn block_side_fits(side: usize) -> bool
    ensures { result ≡ block_side_fits side }
{
    (1 <= side) & (side <= LARGEST_BLOCK_SIDE)
}

/// Refuses what does not fit the domain.
fn check_domain(fits: bool) -> Result<(), FormingRefusal>
    ensures { result ≡ answered (cause (not fits) OutsideDomain) tt }
{
    if fits {
        return Ok(());
    }
    Err(FormingRefusal::OutsideDomain)
}

/// Whether a plane has as many samples as its sides say, and is in the domain.
fn is_whole(plane: ReferencePlane<'_>) -> bool
    ensures { result ≡ plane_fits plane.entry.sides.width plane.entry.sides.height (count_of plane.entry) }
{
    plane_fits(plane.sides, plane.samples.len())
}

pub(crate) fn check_plane(plane: ReferencePlane<'_>) -> Result<(), FormingRefusal>
    ensures { result ≡ answered (plane_refused plane.entry) tt }
{
    check_domain(is_whole(plane))
}

#[tactic(auto, unfolding(crate::specs::Refusals::sample_refusal, crate::specs::Refusals::plane_refusal, crate::specs::Refusals::position_refusal))]
pub(crate) fn check_sample(plane: ReferencePlane<'_>, x: i32, y: i32) -> Result<(), FormingRefusal>
    ensures { result ≡ answered (sample_refused plane.entry x y) tt }
{
    check_domain(is_whole(plane) & (position_fits(LAST_SAMPLE, x) & position_fits(LAST_SAMPLE, y)))
}

#[tactic(auto, unfolding(crate::specs::Refusals::block_refusal, crate::specs::Refusals::plane_refusal, crate::specs::Refusals::position_refusal, crate::specs::Refusals::block_side_fits))]
pub(crate) fn check_block(
    plane: ReferencePlane<'_>,
    x: i32,
    y: i32,
    size: BlockSize,
    room: usize,
) -> Result<(), FormingRefusal>
    ensures { result ≡ answered (block_refused plane.entry x y size.width size.height room) tt }
{
    let sides = block_side_fits(size.width) & block_side_fits(size.height);
    let positions = position_fits(LAST_BLOCK, x) & position_fits(LAST_BLOCK, y);
    check_domain(is_whole(plane) & (sides & positions))?;
    if room != size.width * size.height {
        return Err(FormingRefusal::WrongLength);
    }
    Ok(())
}
