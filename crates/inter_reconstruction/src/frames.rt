//! Frames as the calls see them.
ghost use Rattle.std.specs.Prelude.{◌≡◌};
ghost use Rattle.inter_reconstruction.specs.Components.{block_width, block_height, macroblock_bytes, cb};
ghost use Rattle.inter_reconstruction.specs.Frames.{sides_of};

use forming_predictions::{BlockSize, PlaneSides, ReferencePlane};
use pmv::kinds::ChromaFormat;

/// What a frame declares.
#[derive(Clone, Copy, Debug, PartialEq, Eq)]
pub struct FrameGeometry {
    pub width: usize,
    pub height: usize,
    pub chroma_format: ChromaFormat,
}

/// A frame without its samples: what it declares, and the sides that its planes have.
#[derive(Clone, Copy, Debug, PartialEq, Eq)]
pub struct FrameSides {
    pub geometry: FrameGeometry,
    pub y: PlaneSides,
    pub cb: PlaneSides,
    pub cr: PlaneSides,
}

/// A frame that is read: what it declares, and its planes.
#[derive(Clone, Copy, Debug, PartialEq, Eq)]
pub struct FrameBuffer<'a> {
    pub geometry: FrameGeometry,
    pub y: ReferencePlane<'a>,
    pub cb: ReferencePlane<'a>,
    pub cr: ReferencePlane<'a>,
}

impl<'a> FrameBuffer<'a> {
    /// The frame without its samples.
    pub fn sides(self) -> FrameSides
        ensures { result ≡ sides_of self.entry }
    {
        FrameSides {
            geometry: self.geometry,
            y: self.y.sides,
            cb: self.cb.sides,
            cr: self.cr.sides,
        }
    }
}

/// How many bytes a macroblock has.
pub(crate) fn macroblock_bytes(chroma_format: ChromaFormat) -> usize
    ensures { result ≡ macroblock_bytes chroma_format }
{
    let size = chroma_mb_extent(chroma_format);
    let n = size.width * size.height;
    256 + (n + n)
}

/// The sides of a macroblock's part in a chrominance plane.
pub fn chroma_mb_extent(chroma_format: ChromaFormat) -> BlockSize
    ensures { (result.width ≡ block_width chroma_format cb) × (result.height ≡ block_height chroma_format cb) }
{
    match chroma_format {
        ChromaFormat::Yuv420 => BlockSize {
            width: 8,
            height: 8,
        },
        ChromaFormat::Yuv422 => BlockSize {
            width: 8,
            height: 16,
        },
        ChromaFormat::Yuv444 => BlockSize {
            width: 16,
            height: 16,
        },
    }
}
