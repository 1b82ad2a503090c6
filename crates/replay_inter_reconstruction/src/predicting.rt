//! Predicting a macroblock.
use drawn::{Planes, References};
use inter_reconstruction::frames::FrameBuffer;
use inter_reconstruction::macroblock::predict_macroblock_planes;
use inter_reconstruction::motion::{DirectionVectors, Motion, UsedDirections};
use lists::{Cursor, Unread};
use std::alloc::Global;
use tally::{LONGEST, Lent, number_and_value};

/// `PRESENT WIDTH HEIGHT CHROMA`: a reference with these planes.
fn reference<'a>(
    case: &mut Cursor<'_>,
    planes: &'a Planes,
) -> Result<Option<FrameBuffer<'a>>, Unread> {
    if !case.present(3)? {
        return Ok(None);
    }
    Ok(Some(FrameBuffer {
        geometry: drawn::geometry(case)?,
        y: planes.y.lent(),
        cb: planes.cb.lent(),
        cr: planes.cr.lent(),
    }))
}

/// `USED`.
fn number_of(directions: UsedDirections) -> i64 {
    match directions {
        UsedDirections::Forward => 1,
        UsedDirections::Backward => 2,
        UsedDirections::Both => 3,
    }
}

/// `WIDTH HEIGHT CHROMA`, those of the references with PRESENT, `MB_COL MB_ROW`, the motion of both directions, `FILL LENGTH ANSWER USED AFTER`:
/// whether number, directions and output are as listed, and what is behind the output as it was.
pub(crate) fn macroblock<V: DirectionVectors, R: Fn(&mut Cursor<'_>) -> Result<Option<V>, Unread>>(
    alloc: Global,
    references: &References,
    case: &mut Cursor<'_>,
    direction: R,
) -> Result<bool, Unread>
    requires { R.IsAlwaysCallable direction }
{
    let dest = drawn::geometry(case)?;
    let forward = reference(case, &references.forward)?;
    let backward = reference(case, &references.backward)?;
    let mb_col = case.number()?;
    let mb_row = case.number()?;
    let motion = Motion {
        forward: direction(case)?,
        backward: direction(case)?,
    };
    let mut out = Lent::filled(alloc, case)?;
    let listed = (case.integer()?, case.integer()?);
    let after = case.bytes(alloc, LONGEST)?;
    let given = predict_macroblock_planes(
        dest,
        forward,
        backward,
        mb_col,
        mb_row,
        motion,
        out.lent(),
    );
    let given = given.map(|accepted| number_of(accepted.directions));
    Ok(number_and_value(given, 0) == listed && out.is_as_listed(&after))
}
