//! Where a macroblock's parts lie in their planes: for prediction and for placing.
ghost use Rattle.std.specs.Prelude.{◌≡◌, ◌*◌, ◌≤◌};
ghost use Rattle.inter_reconstruction.specs.Components.{luma, cb};
ghost use Rattle.inter_reconstruction.specs.inner.Blocks.{AreaFits};

use crate::frames::chroma_mb_extent;
use forming_predictions::BlockSize;
use pmv::kinds::ChromaFormat;

/// The place of a macroblock among those of a picture: its column and its row are 0 to 1,023. Until that is tested they are two numbers, as
/// the calls take them.
#[derive(Clone, Copy)]
pub(crate) struct Cell {
    pub(crate) mb_col: usize,
    pub(crate) mb_row: usize,
    ghost near: { (mb_col ≤ 1023) × (mb_row ≤ 1023) },
}

/// A block's place in a plane, and its sides. `y` and `height` count rows, or the lines of a field.
#[derive(Clone, Copy)]
pub(crate) struct Area {
    pub(crate) x: usize,
    pub(crate) y: usize,
    pub(crate) width: usize,
    pub(crate) height: usize,
    ghost fits: { AreaFits x y width height },
}

impl Area {
    /// How many samples it has.
    pub(crate) fn bytes(self) -> usize
        ensures { result ≡ self.width * self.height }
    {
        self.width * self.height
    }

    /// Its sides.
    pub(crate) fn size(self) -> BlockSize
        ensures { (result.width ≡ self.width) × (result.height ≡ self.height) }
    {
        BlockSize {
            width: self.width,
            height: self.height,
        }
    }
}

impl Cell {
    ghost use Rattle.inter_reconstruction.specs.inner.Areas.{PartAt};

    /// The luminance's part.
    pub(crate) fn luma(self) -> Area
        ensures { (f : _) → PartAt f luma self.mb_col self.mb_row result }
    {
        Area {
            x: self.mb_col * 16,
            y: self.mb_row * 16,
            width: 16,
            height: 16,
        }
    }

    /// Cb's part, and Cr's.
    pub(crate) fn chroma(self, chroma_format: ChromaFormat) -> Area
        ensures { PartAt chroma_format cb self.mb_col self.mb_row result }
    {
        let size = chroma_mb_extent(chroma_format);
        Area {
            x: self.mb_col * size.width,
            y: self.mb_row * size.height,
            width: size.width,
            height: size.height,
        }
    }
}
