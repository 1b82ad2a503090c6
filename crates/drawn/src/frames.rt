//! What a frame declares.
ghost use Rattle.std.specs.Prelude.{◌≡◌, ◌^◌, ◌<◌, IfOk, IfErr, OnErr};
ghost use Rattle.lists.specs.declared.unread.Unread.TheVariants.{Malformed};
ghost use Rattle.lists.specs.Places.{MovesTo};
ghost use Rattle.inter_reconstruction.specs.declared.frames.FrameGeometry.{FrameGeometry};
ghost use Rattle.drawn.specs.Fields.{third_end, GeometryAt};

use inter_reconstruction::frames::FrameGeometry;
use lists::{Cursor, Unread};

/// `WIDTH HEIGHT CHROMA`.
pub fn geometry(case: &mut Cursor<'_>) -> Result<FrameGeometry, Unread>
    ensures geometry { IfOk result (GeometryAt case.old.text.now case.old.at) }
    ensures malformed { IfErr result (λ e. e ≡ Malformed) }
    ensures refused { OnErr result ((g : FrameGeometry) → g.width < 2 ^ 64 → g.height < 2 ^ 64 → ¬ (GeometryAt case.old.text.now case.old.at g)) }
    ensures moved { IfOk result (λ _. MovesTo case.old case.new (third_end case.old.text.now case.old.at)) }
{
    Ok(FrameGeometry {
        width: case.number()?,
        height: case.number()?,
        chroma_format: case.kind()?,
    })
}
