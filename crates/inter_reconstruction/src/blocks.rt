//! ISO/IEC 13818-2, 7.6.4 to 7.6.7: one component of a macroblock, the block of one direction or the mean of two. Nothing here knows which
//! component it is.
//!
//! That a plane is readable, and how long an output is, stands in each contract: a plane or a frame of another type, with what was tested of
//! it, would be a copy, and copied a macroblock of two directions took 2 to 5 % more instructions; an output is a part of a longer one.
//! That a block has both fields' rows (`FieldRows`) is asked for where they may be interleaved: a field's own block has any.
ghost use Rattle.std.specs.Prelude.{◌≡◌, ◌+◌, ◌*◌, ◌%◌, ◌≤◌, ◌<◌, length};
ghost use Rattle.laws.specs.Tabulate.{tabulate};
ghost use Rattle.forming_predictions.specs.Means.{rounded};
ghost use Rattle.inter_reconstruction.specs.declared.motion.DirectionMotion.TheVariants.{Frame, Field};
ghost use Rattle.inter_reconstruction.specs.declared.motion.Uses.TheVariants.{Both};
ghost use Rattle.inter_reconstruction.specs.Frames.{plane_reading};
ghost use Rattle.inter_reconstruction.specs.Macroblock.{field_sample, direction_sample, used_sample, rectangle};
ghost use Rattle.inter_reconstruction.specs.inner.Blocks.{Readable, FieldRows, field_halves, interleaved_cell, forward_bytes};

use crate::area::Area;
use crate::motion::{DirectionMotion, FieldVector, FieldVectorPair, MotionVectorPel};
use crate::samples::copy_samples;
use combine_predictions::{
    PredictionDirection, average_predictions, combine_directional_predictions,
};
use forming_predictions::{FieldReference, ReferencePlane, predict_block};

// The calls below refuse nothing of what they are given here, and their answers are let go: with an `unwrap`, which asks for nothing when it
// runs, a field's block took 14 instructions more.

/// A block of the frame's rows.
fn predict_rows(plane: ReferencePlane<'_>, at: Area, v: MotionVectorPel, out: &mut [u8])
    requires { Readable plane × (length out.old ≡ at.width * at.height) }
    ensures { out.new ≡ rectangle at.width at.height (direction_sample rounded (plane_reading plane.entry) (Frame v)) at.x at.y }
{
    let _ = predict_block(
        plane,
        at.x as i32,
        at.y as i32,
        at.size(),
        v.horizontal,
        v.vertical,
        out,
    );
}

/// A block of a field's lines.
fn predict_lines(plane: ReferencePlane<'_>, at: Area, u: FieldVector, out: &mut [u8])
    requires { Readable plane × (length out.old ≡ at.width * at.height) }
    ensures { out.new ≡ rectangle at.width at.height (field_sample rounded (plane_reading plane.entry) u) at.x at.y }
{
    let v = u.vector;
    let reference_field = u.reference_field;
    let _ = predict_block(
        FieldReference {
            plane: plane,
            parity: reference_field,
        },
        at.x as i32,
        at.y as i32,
        at.size(),
        v.horizontal,
        v.vertical,
        out,
    );
}

/// A row of 8 or 16, by eights: a copy of a fixed length is one load and one store, and no call. It is a part of a local block: fixed memory.
fn copy_row(from: &[u8], out: &mut [u8])
    requires { (length out.old ≡ length from.now) × (0 < length out.old) × (length out.old ≤ 16) × (length out.old % 8 ≡ 0) }
    ensures { out.new ≡ from.now }
{
    copy_samples(&from[0..8], &mut out[0..8]);
    if out.len() == 8 {
        return;
    }
    copy_samples(&from[8..16], &mut out[8..16]);
}

/// Two field blocks of `half` rows, one after the other, become the rows of a frame: a row of the one, a row of the other.
fn interleave(halves: &[u8], width: usize, half: usize, out: &mut [u8])
    requires { (width ≤ 16) × (half ≤ 8) × (length halves.now ≡ width * (half + half)) × (length out.old ≡ width * (half + half)) × (0 < width) × (width % 8 ≡ 0) }
    ensures { out.new ≡ tabulate (width * (half + half)) (interleaved_cell halves.now width half) }
{
    let height = half + half;
    for r in 0..height {
        let a = (r % 2 * half + r / 2) * width;
        let b = a + width;
        let o = r * width;
        let e = o + width;
        copy_row(&halves[a..b], &mut out[o..e]);
    }
}

/// Both fields' lines, one block after the other. As there is one call for both, it is inlined, and what is the same for both fields is tested
/// once.
fn predict_halves(plane: ReferencePlane<'_>, at: Area, pair: FieldVectorPair, out: &mut [u8])
    requires { Readable plane × (length out.old ≡ at.width * at.height + at.width * at.height) }
    ensures { out.new ≡ field_halves (plane_reading plane.entry) pair at.width at.height at.x at.y }
{
    let n = at.bytes();
    for (f, &u) in [pair.top, pair.bottom].iter().enumerate() {
        let a = f * n;
        let e = a + n;
        predict_lines(plane, at, u, &mut out[a..e]);
    }
}

/// The block of a direction whose fields have vectors of their own: each field's lines, then interleaved.
#[tactic(auto, using(crate::proofs::Rectangles::halves_length, crate::proofs::Rectangles::interleaved_is, crate::proofs::Begun::front_is))]
fn predict_fields(plane: ReferencePlane<'_>, at: Area, pair: FieldVectorPair, out: &mut [u8])
    requires { Readable plane × (length out.old ≡ at.width * at.height) × FieldRows at.y at.height }
    ensures { out.new ≡ rectangle at.width at.height (direction_sample rounded (plane_reading plane.entry) (Field pair)) at.x at.y }
{
    // fixed memory: no heap in the layers, and no block is larger than 256
    let mut halves = [0u8; 256];
    let n = at.bytes();
    let lines = Area {
        x: at.x,
        y: at.y / 2,
        width: at.width,
        height: at.height / 2,
    };
    predict_halves(plane, lines, pair, &mut halves[..n]);
    interleave(&halves[..n], lines.width, lines.height, out);
}

/// The block of one direction.
pub(crate) fn predict_direction(
    plane: &ReferencePlane<'_>,
    at: Area,
    motion: &DirectionMotion,
    out: &mut [u8],
)
    requires { Readable plane.now × (length out.old ≡ at.width * at.height) × FieldRows at.y at.height }
    ensures { out.new ≡ rectangle at.width at.height (direction_sample rounded (plane_reading plane.now) motion.now) at.x at.y }
{
    match *motion {
        DirectionMotion::Frame(v) => predict_rows(*plane, at, v, out),
        DirectionMotion::Field(pair) => predict_fields(*plane, at, pair, out),
    }
}

/// How many bytes a block of n has of the forward prediction, where there is one direction alone.
fn forward_bytes(direction: PredictionDirection, n: usize) -> usize
    ensures { result ≡ forward_bytes direction n }
{
    match direction {
        PredictionDirection::Forward => n,
        PredictionDirection::Backward => 0,
        PredictionDirection::Skipped => n,
    }
}

/// Writes the prediction of the one direction that there is. The other direction's is empty.
pub(crate) fn store_chosen(direction: PredictionDirection, block: &[u8], out: &mut [u8])
    requires { length out.old ≡ length block.now }
    ensures { out.new ≡ block.now }
{
    let f = forward_bytes(direction, block.len());
    let b = block.len() - f;
    let chosen = combine_directional_predictions(direction, &block[..f], &block[..b]);
    copy_samples(chosen, out);
}

/// The block of a macroblock with two directions: each predicted into a local block, then averaged.
pub(crate) fn predict_two(
    forward: &ReferencePlane<'_>,
    forward_motion: &DirectionMotion,
    backward: &ReferencePlane<'_>,
    backward_motion: &DirectionMotion,
    at: Area,
    out: &mut [u8],
)
    requires { Readable forward.now × Readable backward.now × (length out.old ≡ at.width * at.height) × FieldRows at.y at.height }
    ensures { out.new ≡ rectangle at.width at.height (used_sample rounded (plane_reading forward.now) (plane_reading backward.now) (Both forward_motion.now backward_motion.now)) at.x at.y }
{
    // fixed memory, as above
    let mut first = [0u8; 256];
    let mut second = [0u8; 256];
    let n = at.bytes();
    predict_direction(forward, at, forward_motion, &mut first[..n]);
    predict_direction(backward, at, backward_motion, &mut second[..n]);
    let _ = average_predictions(&first[..n], &second[..n], out);
}
