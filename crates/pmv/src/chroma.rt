//! ISO/IEC 13818-2, 7.6.3.7: the chrominance's vector.
ghost use Rattle.std.specs.Prelude.{◌≡◌};
ghost use Rattle.pmv.specs.Chroma.{trunc_half, scaled};

use crate::kinds::ChromaFormat;

/// A luminance vector and the chrominance vector that it gives, in half samples of each.
#[derive(Clone, Copy, Debug, PartialEq, Eq)]
pub struct ScaledMotionVector {
    pub luma_horiz: i32,
    pub luma_vert: i32,
    pub chroma_horiz: i32,
    pub chroma_vert: i32,
}

/// Half, truncated towards zero: a division, since a shift would floor.
#[tactic(auto, using(crate::proofs::Chrominance::trunc_is, crate::proofs::Chrominance::trunc_fits))]
fn half(v: i32) -> i32
    ensures { result ≡ trunc_half v }
{
    v / 2
}

/// The chrominance vector of a luminance vector: both components halved for 4:2:0, the horizontal one for 4:2:2, none for 4:4:4.
#[tactic(auto, unfolding(crate::specs::Chroma::scaled))]
pub fn scale_chroma(luma_horiz: i32, luma_vert: i32, chroma: ChromaFormat) -> ScaledMotionVector
    ensures { result ≡ scaled luma_horiz luma_vert chroma }
{
    match chroma {
        ChromaFormat::Yuv420 => ScaledMotionVector {
            luma_horiz: luma_horiz,
            luma_vert: luma_vert,
            chroma_horiz: half(luma_horiz),
            chroma_vert: half(luma_vert),
        },
        ChromaFormat::Yuv422 => ScaledMotionVector {
            luma_horiz: luma_horiz,
            luma_vert: luma_vert,
            chroma_horiz: half(luma_horiz),
            chroma_vert: luma_vert,
        },
        ChromaFormat::Yuv444 => ScaledMotionVector {
            luma_horiz: luma_horiz,
            luma_vert: luma_vert,
            chroma_horiz: luma_horiz,
            chroma_vert: luma_vert,
        },
    }
}
