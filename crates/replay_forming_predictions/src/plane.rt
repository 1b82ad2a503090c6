//! The plane that cases read.
use drawn::Plane;
use forming_predictions::PlaneSides;
use lists::{Cursor, Unread};
use std::alloc::Global;

/// No list has a plane of more samples.
const MOST: usize = 32768;

fn sides(case: &mut Cursor<'_>) -> Result<PlaneSides, Unread> {
    Ok(PlaneSides {
        width: case.number()?,
        height: case.number()?,
    })
}

/// `5 WIDTH HEIGHT BYTES`, from WIDTH on.
pub(crate) fn of_bytes(alloc: Global, case: &mut Cursor<'_>) -> Result<Plane, Unread> {
    Ok(Plane {
        sides: sides(case)?,
        samples: case.bytes(alloc, MOST)?,
    })
}

/// `6 WIDTH HEIGHT LENGTH FIRST`, from WIDTH on.
pub(crate) fn of_ramp(alloc: Global, case: &mut Cursor<'_>) -> Result<Plane, Unread> {
    let sides = sides(case)?;
    let length = case.number::<usize>()?;
    let first = case.number::<u8>()?;
    if length > MOST {
        return Err(Unread::Malformed);
    }
    Ok(Plane {
        sides,
        samples: lists::ramp(alloc, first, length)?,
    })
}
