//! Placing: a macroblock's bytes go to the planes of a picture, each to the place that prediction forms it for.
ghost use Rattle.std.specs.Prelude.{◌≡◌, length};
ghost use Rattle.std.specs.Result.{result_err};
ghost use Rattle.combine_predictions.specs.Refusals.{answered, unless_refused};
ghost use Rattle.inter_reconstruction.specs.Components.{ColourComponent, columns_of, lines_of};
ghost use Rattle.inter_reconstruction.specs.Frames.{samples_of, lengths_of};
ghost use Rattle.inter_reconstruction.specs.Placing.{place_at, stored, placed, whole_side, well_formed, cell_inside, picture_fits, placing_number, placing_refusal};
ghost use Rattle.inter_reconstruction.specs.inner.Placing.{Room, Placeable};

use crate::area::{Area, Cell};
use crate::frames::{FrameGeometry, FrameSides, macroblock_bytes};
use crate::macroblock::planes_fit;
use crate::samples::copy_samples;
use forming_predictions::{LARGEST_SIDE, PlaneSides};
use pmv::kinds::ChromaFormat;

/// Why a macroblock is not placed. Each reason has its number of docs/SCOPE.md.
#[derive(Clone, Copy, Debug, PartialEq, Eq)]
pub enum PlacingRefusal {
    /// A side is over 16,384, or a plane has another number of samples than its sides say.
    OutsideDomain = 14,
    /// There are more or fewer bytes than a macroblock has.
    WrongLength = 18,
    /// The picture is ill-formed, or the cell outside it.
    IllFormed = 20,
}

impl From<PlacingRefusal> for u32 {
    ghost from_gives = { λ refusal number. number ≡ placing_number refusal };

    fn from(refusal: PlacingRefusal) -> u32 {
        refusal as u32
    }
}

/// Writes a block to a plane of `width` columns, row after row.
fn place_block(block: &[u8], at: Area, width: usize, plane: &mut [u8])
    requires { Room at.x at.y at.width at.height width (length plane.old) (length block.now) }
    ensures { plane.new ≡ stored (place_at width at.width at.x at.y) block.now plane.old }
{
    for r in 0..at.height {
        let a = r * at.width;
        let b = a + at.width;
        let o = (at.y + r) * width + at.x;
        let e = o + at.width;
        copy_samples(&block[a..b], &mut plane[o..e]);
    }
}

/// All three components.
fn place_planes(
    picture: FrameSides,
    mb_col: usize,
    mb_row: usize,
    bytes: &[u8],
    y: &mut [u8],
    cb: &mut [u8],
    cr: &mut [u8],
)
    requires { Placeable picture (lengths_of (samples_of y.old cb.old cr.old)) (length bytes.now) mb_col mb_row }
    ensures { samples_of y.new cb.new cr.new ≡ placed picture mb_col mb_row bytes.now (samples_of y.old cb.old cr.old) }
{
    let cell = Cell { mb_col, mb_row };
    let chroma_at = cell.chroma(picture.geometry.chroma_format);
    let a = 256 + chroma_at.bytes();
    let e = bytes.len();
    place_block(&bytes[0..256], cell.luma(), picture.y.width, y);
    place_block(&bytes[256..a], chroma_at, picture.cb.width, cb);
    place_block(&bytes[a..e], chroma_at, picture.cr.width, cr);
}

/// No side is over 16,384, and each plane has as many samples as its sides say.
#[tactic(auto, unfolding(crate::specs::Placing::picture_fits))]
fn picture_fits(picture: FrameSides, y: &[u8], cb: &[u8], cr: &[u8]) -> bool
    ensures { result ≡ picture_fits picture (lengths_of (samples_of y.now cb.now cr.now)) }
{
    let g = picture.geometry;
    ((g.width <= LARGEST_SIDE) & (g.height <= LARGEST_SIDE)) & planes_fit(picture, y, cb, cr)
}

/// A side of a picture is a multiple of 16, and not 0.
fn whole_side(side: usize) -> bool
    ensures { result ≡ whole_side side }
{
    (side != 0) & (side % 16 == 0)
}

/// The sides of a chrominance plane that fits the picture's sides and format.
fn chroma_sides(g: FrameGeometry) -> PlaneSides
    ensures { (result.width ≡ columns_of g.chroma_format ColourComponent.cb g.width) × (result.height ≡ lines_of g.chroma_format ColourComponent.cb g.height) }
{
    let f = g.chroma_format;
    match f {
        ChromaFormat::Yuv420 => PlaneSides {
            width: g.width / 2,
            height: g.height / 2,
        },
        ChromaFormat::Yuv422 => PlaneSides {
            width: g.width / 2,
            height: g.height,
        },
        ChromaFormat::Yuv444 => PlaneSides {
            width: g.width,
            height: g.height,
        },
    }
}

/// The picture's sides are whole, and its planes fit them.
#[tactic(auto, unfolding(crate::specs::Placing::well_formed))]
fn well_formed(picture: FrameSides) -> bool
    ensures { result ≡ well_formed picture }
{
    let g = picture.geometry;
    let luma = PlaneSides {
        width: g.width,
        height: g.height,
    };
    let chroma = chroma_sides(g);
    (whole_side(g.width) & whole_side(g.height))
        & ((picture.y == luma) & ((picture.cb == chroma) & (picture.cr == chroma)))
}

fn cell_inside(g: FrameGeometry, mb_col: usize, mb_row: usize) -> bool
    ensures { result ≡ cell_inside g mb_col mb_row }
{
    (mb_col < g.width / 16) & (mb_row < g.height / 16)
}

/// 14, then 20, then 18.
fn check_placing(
    picture: FrameSides,
    mb_col: usize,
    mb_row: usize,
    bytes: usize,
    y: &[u8],
    cb: &[u8],
    cr: &[u8],
) -> Result<(), PlacingRefusal>
    ensures { result ≡ answered (placing_refusal picture (lengths_of (samples_of y.now cb.now cr.now)) bytes mb_col mb_row) tt }
{
    if !picture_fits(picture, y, cb, cr) {
        return Err(PlacingRefusal::OutsideDomain);
    }
    let geometry = picture.geometry;
    if !(well_formed(picture) & cell_inside(geometry, mb_col, mb_row)) {
        return Err(PlacingRefusal::IllFormed);
    }
    if bytes != macroblock_bytes(geometry.chroma_format) {
        return Err(PlacingRefusal::WrongLength);
    }
    Ok(())
}

/// Writes a macroblock's bytes, luminance, then Cb, then Cr, to the cell of a picture's planes in column `mb_col` and row `mb_row` of its
/// macroblocks. Nothing is written by a refusal: of a side over 16,384 or a plane with another number of samples than its sides say (14), of an
/// ill-formed picture or a cell outside it (20), of another number of bytes than a macroblock has (18). The picture's sides and its three
/// planes are four parameters, since the planes are lent to be written.
pub fn place_macroblock(
    picture: FrameSides,
    mb_col: usize,
    mb_row: usize,
    bytes: &[u8],
    y: &mut [u8],
    cb: &mut [u8],
    cr: &mut [u8],
) -> Result<(), PlacingRefusal>
    ensures answer { result ≡ answered (placing_refusal picture (lengths_of (samples_of y.old cb.old cr.old)) (length bytes.now) mb_col mb_row) tt }
    ensures planes { samples_of y.new cb.new cr.new ≡ unless_refused (result_err result) (placed picture mb_col mb_row bytes.now (samples_of y.old cb.old cr.old)) (samples_of y.old cb.old cr.old) }
{
    check_placing(picture, mb_col, mb_row, bytes.len(), y, cb, cr)?;
    place_planes(picture, mb_col, mb_row, bytes, y, cb, cr);
    Ok(())
}
