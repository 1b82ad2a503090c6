//! Calls that touch no predictors.
use crate::fields;
use crate::fields::NO_COMPONENT;
use lists::{Cursor, Unread};
use pmv::component::VectorRange;
use pmv::kinds::{ChromaFormat, MvFormat, PictureStructure};
use tally::number_and_value;

/// Zeros, as a list has them where a range is refused.
const NO_RANGE: VectorRange = VectorRange {
    low: 0,
    high: 0,
    range: 0,
};

/// `1 CODE PRESENT RESIDUAL F_CODE ANSWER DELTA`, from CODE on.
pub(crate) fn delta(case: &mut Cursor<'_>) -> Result<bool, Unread> {
    let motion_code = case.number()?;
    let residual = fields::residual(case)?;
    let f_code = case.number()?;
    let listed = (fields::number(case)?, case.number()?);
    let given = pmv::component::compute_delta(motion_code, residual, f_code);
    Ok(number_and_value(given, 0) == listed)
}

/// `2 F_CODE ANSWER LOW HIGH RANGE`, from F_CODE on.
pub(crate) fn range(case: &mut Cursor<'_>) -> Result<bool, Unread> {
    let f_code = case.number()?;
    let answer = fields::number(case)?;
    let range = VectorRange {
        low: case.number()?,
        high: case.number()?,
        range: case.number()?,
    };
    let given = pmv::component::vector_range(f_code);
    Ok(number_and_value(given, NO_RANGE) == (answer, range))
}

/// `3 CODE PRESENT RESIDUAL F_CODE PRIOR FORMAT STRUCTURE T ANSWER VECTOR NEW_PMV DELTA RANGE`, from CODE on.
pub(crate) fn reconstructing(case: &mut Cursor<'_>) -> Result<bool, Unread> {
    let motion_code = case.number()?;
    let residual = fields::residual(case)?;
    let f_code = case.number()?;
    let prior = case.number()?;
    let format_number = case.number()?;
    let format = fields::kind::<MvFormat>(format_number)?;
    let picture_number = case.number()?;
    let picture = fields::kind::<PictureStructure>(picture_number)?;
    let t = fields::component(case)?;
    let listed = (fields::number(case)?, fields::reconstructed(case)?);
    let given = pmv::component::reconstruct_component(
        motion_code,
        residual,
        f_code,
        prior,
        format,
        picture,
        t,
    );
    let numbers = (u32::from(format), u32::from(picture));
    Ok(
        number_and_value(given, NO_COMPONENT) == listed
            && numbers == (format_number, picture_number),
    )
}

/// `6 LUMA_H LUMA_V CHROMA CHROMA_H CHROMA_V`, from LUMA_H on.
pub(crate) fn scaling(case: &mut Cursor<'_>) -> Result<bool, Unread> {
    let luma = (case.number()?, case.number()?);
    let number = case.number()?;
    let format = fields::kind::<ChromaFormat>(number)?;
    let chroma = (case.number::<i32>()?, case.number::<i32>()?);
    let v = pmv::chroma::scale_chroma(luma.0, luma.1, format);
    Ok(
        (v.luma_horiz, v.luma_vert) == luma
            && (v.chroma_horiz, v.chroma_vert) == chroma
            && u32::from(format) == number,
    )
}
