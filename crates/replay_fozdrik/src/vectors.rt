//! The lines of the entry points for vectors and predictors.
use entry_points::vectors::{fozdrik_reconstruct_motion_vector, fozdrik_update_predictors};
use lists::{Cursor, Unread};
use std::alloc::Global;
use tally::Lent;

/// No buffer of a list has more bytes on these lines.
const MOST: usize = 64;

/// A part of a vector as the stream has it.
#[derive(Clone, Copy)]
struct Coded {
    code: i32,
    residual_present: u32,
    residual: u8,
}

impl Coded {
    /// `CODE PRESENT RESIDUAL`.
    fn read(case: &mut Cursor<'_>) -> Result<Coded, Unread> {
        Ok(Coded {
            code: case.number()?,
            residual_present: case.number()?,
            residual: case.number()?,
        })
    }
}

/// `FILL LENGTH ANSWER BEFORE AFTER RESULT`: makes the call, and compares the number and both buffers, the predictors' and the result's.
fn compared<C: FnOnce(&mut [u8], &mut [u8]) -> u32>(
    alloc: Global,
    case: &mut Cursor<'_>,
    call: C,
) -> Result<bool, Unread>
    requires { C.IsAlwaysCallable call }
{
    let mut taken = Lent::filled(alloc, case)?;
    let answer = case.number::<u32>()?;
    let mut predictors = Lent::holding(alloc, case)?;
    let predictors_after = case.bytes(alloc, MOST)?;
    let taken_after = case.bytes(alloc, MOST)?;
    if predictors.lent().len() > MOST || taken.lent().len() > MOST {
        return Err(Unread::Malformed);
    }
    let given = call(predictors.lent(), taken.lent());
    Ok(
        given == answer
            && predictors.is_as_listed(&predictors_after)
            && taken.is_as_listed(&taken_after),
    )
}

/// `2 R S`, `CODE PRESENT RESIDUAL` of each part, `F_CODE F_CODE FORMAT STRUCTURE FILL LENGTH ANSWER BEFORE AFTER VECTOR`, from R on.
pub(crate) fn vector(alloc: Global, case: &mut Cursor<'_>) -> Result<bool, Unread> {
    let r = case.number()?;
    let s = case.number()?;
    let horizontal = Coded::read(case)?;
    let vertical = Coded::read(case)?;
    let f_code_horiz = case.number()?;
    let f_code_vert = case.number()?;
    let mv_format = case.number()?;
    let picture_structure = case.number()?;
    compared(alloc, case, |predictors, vector| {
        fozdrik_reconstruct_motion_vector(
            r,
            s,
            horizontal.code,
            horizontal.residual_present,
            horizontal.residual,
            vertical.code,
            vertical.residual_present,
            vertical.residual,
            f_code_horiz,
            f_code_vert,
            mv_format,
            picture_structure,
            predictors,
            vector,
        )
    })
}

/// `3 STRUCTURE PRESENT TYPE FORWARD BACKWARD INTRA CONCEALMENT FILL LENGTH ANSWER BEFORE AFTER OUTCOME`, from STRUCTURE on.
pub(crate) fn update(alloc: Global, case: &mut Cursor<'_>) -> Result<bool, Unread> {
    let picture_structure = case.number()?;
    let prediction_type_present = case.number()?;
    let prediction_type = case.number()?;
    let forward = case.number()?;
    let backward = case.number()?;
    let intra = case.number()?;
    let concealment = case.number()?;
    compared(alloc, case, |predictors, outcome| {
        fozdrik_update_predictors(
            picture_structure,
            prediction_type_present,
            prediction_type,
            forward,
            backward,
            intra,
            concealment,
            predictors,
            outcome,
        )
    })
}
