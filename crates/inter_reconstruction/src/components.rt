//! ISO/IEC 13818-2, 7.6.4 to 7.6.7: the three components of a macroblock, of one direction or of two.
ghost use Rattle.std.specs.Prelude.{◌≡◌, ◌++◌, ◌+◌, length};
ghost use Rattle.forming_predictions.specs.Means.{rounded};
ghost use Rattle.inter_reconstruction.specs.declared.motion.Uses.TheVariants.{Both};
ghost use Rattle.inter_reconstruction.specs.Components.{ColourComponent, macroblock_bytes};
ghost use Rattle.inter_reconstruction.specs.Frames.{frame_reading};
ghost use Rattle.inter_reconstruction.specs.Macroblock.{predicted};
ghost use Rattle.inter_reconstruction.specs.inner.Planes.{AllReadable, BlocksFit, directed_part, directed};

use crate::area::Cell;
use crate::blocks::{predict_direction, predict_two, store_chosen};
use crate::frames::{FrameBuffer, chroma_mb_extent};
use crate::motion::DirectionMotion;
use combine_predictions::PredictionDirection;
use pmv::kinds::ChromaFormat;

// ---- the three components of one direction

/// The three blocks of one direction.
fn predict_blocks(
    motion: DirectionMotion,
    chroma_format: ChromaFormat,
    frame: &FrameBuffer<'_>,
    cell: Cell,
    y_block: &mut [u8],
    cb_block: &mut [u8],
    cr_block: &mut [u8],
)
    requires { AllReadable frame.now × BlocksFit chroma_format (length y_block.old) (length cb_block.old) (length cr_block.old) }
    ensures y_block_at_exit { y_block.new ≡ directed_part chroma_format (frame_reading frame.now) motion ColourComponent.luma cell.mb_col cell.mb_row }
    ensures cb_block_at_exit { cb_block.new ≡ directed_part chroma_format (frame_reading frame.now) motion ColourComponent.cb cell.mb_col cell.mb_row }
    ensures cr_block_at_exit { cr_block.new ≡ directed_part chroma_format (frame_reading frame.now) motion ColourComponent.cr cell.mb_col cell.mb_row }
{
    let luma_at = cell.luma();
    let chroma_at = cell.chroma(chroma_format);
    let chroma = motion.chroma(chroma_format);
    predict_direction(&frame.y, luma_at, &motion, y_block);
    predict_direction(&frame.cb, chroma_at, &chroma, cb_block);
    predict_direction(&frame.cr, chroma_at, &chroma, cr_block);
}

/// Writes the three blocks of the one direction that there is.
fn store_blocks(direction: PredictionDirection, y: &[u8], cb: &[u8], cr: &[u8], out: &mut [u8])
    requires { length out.old ≡ length y.now + (length cb.now + length cr.now) }
    ensures { out.new ≡ y.now ++ (cb.now ++ cr.now) }
{
    let a = y.len();
    let b = a + cb.len();
    let e = out.len();
    store_chosen(direction, y, &mut out[0..a]);
    store_chosen(direction, cb, &mut out[a..b]);
    store_chosen(direction, cr, &mut out[b..e]);
}

/// A macroblock with one direction. All three blocks are predicted before the first is copied: a copy that at once reads what was written
/// in smaller parts waits until that is in memory.
#[tactic(auto, using(crate::proofs::Begun::front_is, crate::proofs::Rectangles::rectangle_length), unfolding(crate::specs::Macroblock::macroblock))]
pub(crate) fn predict_from_one(
    direction: PredictionDirection,
    motion: DirectionMotion,
    chroma_format: ChromaFormat,
    frame: &FrameBuffer<'_>,
    cell: Cell,
    out: &mut [u8],
)
    requires { AllReadable frame.now × (length out.old ≡ macroblock_bytes chroma_format) }
    ensures { out.new ≡ directed chroma_format (frame_reading frame.now) motion cell.mb_col cell.mb_row }
{
    let size = chroma_mb_extent(chroma_format);
    let n = size.width * size.height;
    // fixed memory: no heap in the layers, and no block is larger than 256
    let mut y_block = [0u8; 256];
    let mut cb_block = [0u8; 256];
    let mut cr_block = [0u8; 256];
    predict_blocks(
        motion,
        chroma_format,
        frame,
        cell,
        &mut y_block,
        &mut cb_block[..n],
        &mut cr_block[..n],
    );
    store_blocks(direction, &y_block, &cb_block[..n], &cr_block[..n], out);
}

// ---- the three components of two directions

/// A macroblock with two directions.
pub(crate) fn predict_from_two(
    forward_motion: DirectionMotion,
    backward_motion: DirectionMotion,
    chroma_format: ChromaFormat,
    forward: &FrameBuffer<'_>,
    backward: &FrameBuffer<'_>,
    cell: Cell,
    out: &mut [u8],
)
    requires { AllReadable forward.now × AllReadable backward.now × (length out.old ≡ macroblock_bytes chroma_format) }
    ensures { let forward_read = frame_reading forward.now in
        let backward_read = frame_reading backward.now in
        out.new ≡ predicted rounded chroma_format forward_read backward_read (Both forward_motion backward_motion) cell.mb_col cell.mb_row }
{
    let luma_at = cell.luma();
    let chroma_at = cell.chroma(chroma_format);
    let forward_chroma = forward_motion.chroma(chroma_format);
    let backward_chroma = backward_motion.chroma(chroma_format);
    let a = 256 + chroma_at.bytes();
    let e = out.len();
    predict_two(
        &forward.y,
        &forward_motion,
        &backward.y,
        &backward_motion,
        luma_at,
        &mut out[0..256],
    );
    predict_two(
        &forward.cb,
        &forward_chroma,
        &backward.cb,
        &backward_chroma,
        chroma_at,
        &mut out[256..a],
    );
    predict_two(
        &forward.cr,
        &forward_chroma,
        &backward.cr,
        &backward_chroma,
        chroma_at,
        &mut out[a..e],
    );
}
