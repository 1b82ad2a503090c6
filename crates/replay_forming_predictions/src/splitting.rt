//! Vectors and patterns.
use forming_predictions::{FieldParity, FieldReference, HalfPattern, PlaneSides, ReferencePlane};
use lists::{Cursor, Unread};

/// The number of a pattern. Its enum has the order of the original's.
fn number_of(pattern: HalfPattern) -> i64 {
    i64::from(pattern as u8)
}

/// `1 VECTOR INT_VEC HALF_FLAG`, from VECTOR on.
pub(crate) fn component(case: &mut Cursor<'_>) -> Result<bool, Unread> {
    let split = forming_predictions::split_component(case.number()?);
    let int_vec = case.number::<i32>()?;
    let half_flag = case.integer()?;
    Ok(split.int_vec == int_vec && i64::from(split.half_flag) == half_flag)
}

/// `2 HORIZONTAL VERTICAL INT_X HALF_X INT_Y HALF_Y PATTERN`, from HORIZONTAL on.
pub(crate) fn vector(case: &mut Cursor<'_>) -> Result<bool, Unread> {
    let split = forming_predictions::split_vector(case.number()?, case.number()?);
    let across = (case.number::<i32>()?, case.integer()?);
    let down = (case.number::<i32>()?, case.integer()?);
    let pattern = case.integer()?;
    let halves = (
        i64::from(split.horizontal.half_flag),
        i64::from(split.vertical.half_flag),
    );
    Ok(
        (split.horizontal.int_vec, halves.0) == across
            && (split.vertical.int_vec, halves.1) == down
            && number_of(split.pattern()) == pattern,
    )
}

/// `3 HALF_X HALF_Y PATTERN IS_HALF_PEL`, from HALF_X on.
pub(crate) fn pattern(case: &mut Cursor<'_>) -> Result<bool, Unread> {
    let half_x = case.flag()?;
    let half_y = case.flag()?;
    let number = case.integer()?;
    let is_half_pel = case.integer()?;
    let pattern = HalfPattern::from_flags(half_x, half_y);
    let flags = pattern.flags();
    Ok(
        number_of(pattern) == number
            && (flags.horizontal, flags.vertical) == (half_x, half_y)
            && i64::from(pattern.is_half_pel()) == is_half_pel,
    )
}

/// `4 HEIGHT TOP BOTTOM`, from HEIGHT on.
pub(crate) fn field_heights(case: &mut Cursor<'_>) -> Result<bool, Unread> {
    let plane = ReferencePlane {
        sides: PlaneSides {
            width: 0,
            height: case.number()?,
        },
        samples: &[],
    };
    let top = case.number::<usize>()?;
    let bottom = case.number::<usize>()?;
    let height = |parity| FieldReference { plane, parity }.height();
    Ok(height(FieldParity::Top) == top && height(FieldParity::Bottom) == bottom)
}
