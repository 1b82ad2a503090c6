//! ISO/IEC 13818-2, 7.6.4 to 7.6.7: the calls that predict a macroblock, with all that they refuse.
ghost use Rattle.std.specs.Prelude.{◌≡◌, false, Some, None, Ok, length, is_some};
ghost use Rattle.std.specs.Result.{result_err};
ghost use Rattle.combine_predictions.specs.Refusals.{answered, unless_refused};
ghost use Rattle.inter_reconstruction.specs.declared.motion.Uses.TheVariants.{Both};
ghost use Rattle.inter_reconstruction.specs.declared.macroblock.PredictionRefusal.TheVariants.{BackwardMissing};
ghost use Rattle.inter_reconstruction.specs.Components.{macroblock_bytes};
ghost use Rattle.inter_reconstruction.specs.Motion.{wanted_by, uses_by, BackwardAlone};
ghost use Rattle.inter_reconstruction.specs.Frames.{samples_of, lengths_of, sides_of, samples_in, given_sides, given_lengths, given_reading};
ghost use Rattle.inter_reconstruction.specs.Refusals.{prediction_number, same_geometry, planes_fit, one_refusal};
ghost use Rattle.inter_reconstruction.specs.Answers.{accepted, directions_of, prediction_directions, refusal_among, refusal_from, prediction_from};
ghost use Rattle.inter_reconstruction.specs.inner.Planes.{directed, missing_in, destination_refusal};

use crate::area::Cell;
use crate::components::{predict_from_one, predict_from_two};
use crate::frames::{FrameBuffer, FrameGeometry, FrameSides, macroblock_bytes};
use crate::motion::{DirectionMotion, DirectionVectors, Motion, UsedDirections, Uses};
use combine_predictions::PredictionDirection;
use forming_predictions::plane_fits;

/// The last column and the last row of macroblocks that are taken.
pub const LAST_CELL: usize = 1023;

/// What an accepted call tells of its prediction.
#[derive(Clone, Copy, Debug, PartialEq, Eq)]
pub struct Accepted {
    pub directions: UsedDirections,
}

/// Why the prediction of a macroblock is refused. Each reason has its number of docs/SCOPE.md.
#[derive(Clone, Copy, Debug, PartialEq, Eq)]
pub enum PredictionRefusal {
    /// The column or the row is over 1,023.
    CellTooFar = 13,
    /// A plane's length is not width times height, or a side is outside the domain.
    OutsideDomain = 14,
    /// A reference's width, height or format is not the destination's.
    OtherGeometry = 15,
    /// The forward reference is used, and absent; of two directions, both references are.
    ForwardMissing = 16,
    /// The backward reference is used alone, and absent.
    BackwardMissing = 17,
    /// The output is not as long as a macroblock.
    WrongLength = 18,
}

impl From<PredictionRefusal> for u32 {
    ghost from_gives = { λ refusal number. number ≡ prediction_number refusal };

    fn from(refusal: PredictionRefusal) -> u32 {
        refusal as u32
    }
}

/// A function, since the definition is the scope's; `==` on all fields is the same.
#[tactic(auto, unfolding(crate::specs::Refusals::same_geometry))]
fn same_geometry(a: FrameGeometry, b: FrameGeometry) -> bool
    ensures { result ≡ same_geometry a b }
{
    a == b
}

/// Each plane of a frame is in the domain: no side is too long, and it has as many samples as its sides say.
#[tactic(auto, unfolding(crate::specs::Refusals::planes_fit))]
pub fn planes_fit(frame: FrameSides, y: &[u8], cb: &[u8], cr: &[u8]) -> bool
    ensures { result ≡ planes_fit frame (lengths_of (samples_of y.now cb.now cr.now)) }
{
    plane_fits(frame.y, y.len()) & (plane_fits(frame.cb, cb.len()) & plane_fits(frame.cr, cr.len()))
}

/// The same of a frame with its samples.
fn frame_fits(frame: &FrameBuffer<'_>) -> bool
    ensures { result ≡ planes_fit (sides_of frame.now) (lengths_of (samples_in frame.now)) }
{
    planes_fit(
        frame.sides(),
        frame.y.samples,
        frame.cb.samples,
        frame.cr.samples,
    )
}

/// The refusal of a direction whose reference is absent.
fn missing_in(direction: PredictionDirection) -> PredictionRefusal
    ensures { result ≡ missing_in direction }
{
    match direction {
        PredictionDirection::Forward => PredictionRefusal::ForwardMissing,
        PredictionDirection::Backward => PredictionRefusal::BackwardMissing,
        PredictionDirection::Skipped => PredictionRefusal::ForwardMissing,
    }
}

/// One direction: 16 or 17 where its reference is absent; 15; 14.
fn predict_alone(
    dest: FrameGeometry,
    direction: PredictionDirection,
    motion: DirectionMotion,
    reference: Option<FrameBuffer<'_>>,
    cell: Cell,
    out: &mut [u8],
) -> Result<(), PredictionRefusal>
    requires { length out.old ≡ macroblock_bytes dest.chroma_format }
    ensures answer { result ≡ answered (one_refusal (missing_in direction) dest (given_sides reference.entry) (given_lengths reference.entry)) tt }
    ensures buffer { out.new ≡ unless_refused (result_err result) (directed dest.chroma_format (given_reading reference.entry) motion cell.mb_col cell.mb_row) out.old }
{
    let frame = reference.as_ref().ok_or(missing_in(direction))?;
    if !same_geometry(frame.geometry, dest) {
        return Err(PredictionRefusal::OtherGeometry);
    }
    if !frame_fits(frame) {
        return Err(PredictionRefusal::OutsideDomain);
    }
    predict_from_one(direction, motion, dest.chroma_format, frame, cell, out);
    Ok(())
}

/// Both directions: 16, then 17, where their references are absent; 15 of the forward one, then of the backward one; 14. From the calls above
/// either both are absent or none is.
fn predict_both(
    dest: FrameGeometry,
    forward_motion: DirectionMotion,
    backward_motion: DirectionMotion,
    forward: Option<FrameBuffer<'_>>,
    backward: Option<FrameBuffer<'_>>,
    cell: Cell,
    out: &mut [u8],
) -> Result<(), PredictionRefusal>
    requires { length out.old ≡ macroblock_bytes dest.chroma_format }
    ensures answer { result ≡ answered (refusal_among dest forward.entry backward.entry (Both forward_motion backward_motion)) tt }
    ensures buffer { let prediction = prediction_from dest.chroma_format forward.entry backward.entry (Both forward_motion backward_motion) cell.mb_col cell.mb_row in
        out.new ≡ unless_refused (result_err result) prediction out.old }
{
    let first = forward.as_ref().ok_or(PredictionRefusal::ForwardMissing)?;
    let second = backward.as_ref().ok_or(PredictionRefusal::BackwardMissing)?;
    if !same_geometry(first.geometry, dest) {
        return Err(PredictionRefusal::OtherGeometry);
    }
    if !same_geometry(second.geometry, dest) {
        return Err(PredictionRefusal::OtherGeometry);
    }
    if !frame_fits(first) {
        return Err(PredictionRefusal::OutsideDomain);
    }
    if !frame_fits(second) {
        return Err(PredictionRefusal::OutsideDomain);
    }
    predict_from_two(
        forward_motion,
        backward_motion,
        dest.chroma_format,
        first,
        second,
        cell,
        out,
    );
    Ok(())
}

/// 13, then 18.
fn check_destination(
    dest: FrameGeometry,
    mb_col: usize,
    mb_row: usize,
    room: usize,
) -> Result<(), PredictionRefusal>
    ensures { result ≡ answered (destination_refusal dest room mb_col mb_row) tt }
{
    if (LAST_CELL < mb_col) | (LAST_CELL < mb_row) {
        return Err(PredictionRefusal::CellTooFar);
    }
    if room != macroblock_bytes(dest.chroma_format) {
        return Err(PredictionRefusal::WrongLength);
    }
    Ok(())
}

/// The directions that are used, with their references: what `prediction_refusal` has after the destination.
#[tactic(auto, using(crate::proofs::Checks::forward_alone, crate::proofs::Checks::backward_alone))]
#[inline(always)] // into each kind's call, which knows the kind: a macroblock of one direction takes 115 to 145 instructions less
fn predict_used(
    dest: FrameGeometry,
    used: Uses,
    forward: Option<FrameBuffer<'_>>,
    backward: Option<FrameBuffer<'_>>,
    cell: Cell,
    out: &mut [u8],
) -> Result<Accepted, PredictionRefusal>
    requires { length out.old ≡ macroblock_bytes dest.chroma_format }
    ensures answer { result ≡ answered (refusal_among dest forward.entry backward.entry used) (accepted used) }
    ensures buffer { let prediction = prediction_from dest.chroma_format forward.entry backward.entry used cell.mb_col cell.mb_row in
        out.new ≡ unless_refused (result_err result) prediction out.old }
{
    let directions = match used {
        Uses::Forward(d) => {
            predict_alone(dest, PredictionDirection::Forward, d, forward, cell, out)?;
            UsedDirections::Forward
        }
        Uses::Backward(e) => {
            predict_alone(dest, PredictionDirection::Backward, e, backward, cell, out)?;
            UsedDirections::Backward
        }
        Uses::Both(d, e) => {
            predict_both(dest, d, e, forward, backward, cell, out)?;
            UsedDirections::Both
        }
    };
    Ok(Accepted { directions })
}

/// Writes the prediction of a macroblock, frame-based or field-based by its vectors: luminance, then Cb, then Cr, each row after row. Nothing is
/// written by a refusal: of a cell that is too far, of an output of the wrong length, of a reference that is used and absent, of another
/// geometry than the destination's, of a plane that is outside the domain.
pub fn predict_macroblock_planes<V: DirectionVectors>(
    dest: FrameGeometry,
    forward: Option<FrameBuffer<'_>>,
    backward: Option<FrameBuffer<'_>>,
    mb_col: usize,
    mb_row: usize,
    motion: Motion<V>,
    out: &mut [u8],
) -> Result<Accepted, PredictionRefusal>
    ensures answer { let used = uses_by V.motion V.still motion (is_some forward.entry) (is_some backward.entry) in
        let refusal = refusal_from dest (length out.old) forward.entry backward.entry used mb_col mb_row in
        result ≡ answered refusal (accepted used) }
    ensures directions { let used = uses_by V.motion V.still motion (is_some forward.entry) (is_some backward.entry) in
        result_err result ≡ None → prediction_directions result ≡ Some (directions_of used) }
    ensures buffer { let used = uses_by V.motion V.still motion (is_some forward.entry) (is_some backward.entry) in
        let prediction = prediction_from dest.chroma_format forward.entry backward.entry used mb_col mb_row in
        out.new ≡ unless_refused (result_err result) prediction out.old }

    // Samples given by the directions that have motion, where nothing of these is refused, are as they would be by these alone.
    ensures unchanged { let wanted = wanted_by V.motion V.still motion in
        let refusal = refusal_from dest (length out.old) forward.entry backward.entry wanted mb_col mb_row in
        let prediction = prediction_from dest.chroma_format forward.entry backward.entry wanted mb_col mb_row in
        refusal ≡ None → (result ≡ Ok (accepted wanted)) × (out.new ≡ prediction) }
    ensures backward_alone { result_err result ≡ Some BackwardMissing → BackwardAlone (wanted_by V.motion V.still motion) × (is_some backward.entry ≡ false) }
{
    check_destination(dest, mb_col, mb_row, out.len())?;
    predict_used(
        dest,
        motion.uses(forward.is_some(), backward.is_some()),
        forward,
        backward,
        Cell { mb_col, mb_row },
        out,
    )
}
