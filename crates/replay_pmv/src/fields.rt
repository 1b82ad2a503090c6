//! The fields of a line.
use lists::{Cursor, Unread};
use pmv::component::ReconstructedComponent;
use pmv::kinds::{Component, PictureCodingType, PredictionType};
use pmv::predictors::Pmv;

/// Zeros, as a list has them where a component is refused.
pub(crate) const NO_COMPONENT: ReconstructedComponent = ReconstructedComponent {
    vector_prime: 0,
    new_pmv: 0,
    delta: 0,
    range: 0,
};

/// The kind that a number of the list means. Beside `Cursor::kind`, since four callers compare the number too.
pub(crate) fn kind<K: TryFrom<u32>>(number: u32) -> Result<K, Unread>
where
    K::Error: Drop,
{
    K::try_from(number).map_err(|_| Unread::Malformed)
}

/// `T`, of which `pmv` reads no number.
pub(crate) fn component(case: &mut Cursor<'_>) -> Result<Component, Unread> {
    match case.integer()? {
        0 => Ok(Component::Horizontal),
        1 => Ok(Component::Vertical),
        _ => Err(Unread::Malformed),
    }
}

/// `CODING_TYPE`, of which `pmv` reads no number, but which has one.
pub(crate) fn coding_type(case: &mut Cursor<'_>) -> Result<PictureCodingType, Unread> {
    let number = case.number::<u32>()?;
    let coding_type = match number {
        0 => PictureCodingType::Intra,
        1 => PictureCodingType::Predictive,
        2 => PictureCodingType::Bidirectional,
        3 => PictureCodingType::DcIntra,
        _ => return Err(Unread::Malformed),
    };
    if u32::from(coding_type) != number {
        return Err(Unread::Malformed);
    }
    Ok(coding_type)
}

/// `PRESENT RESIDUAL`.
pub(crate) fn residual(case: &mut Cursor<'_>) -> Result<Option<u8>, Unread> {
    if !case.present(1)? {
        return Ok(None);
    }
    Ok(Some(case.number()?))
}

/// `PRESENT TYPE`.
pub(crate) fn prediction_type(case: &mut Cursor<'_>) -> Result<Option<PredictionType>, Unread> {
    if !case.present(1)? {
        return Ok(None);
    }
    let number = case.number()?;
    let prediction_type = kind::<PredictionType>(number)?;
    if u32::from(prediction_type) != number {
        return Err(Unread::Malformed);
    }
    Ok(Some(prediction_type))
}

/// `P0..P7`, or `Q0..Q7`.
pub(crate) fn predictors(case: &mut Cursor<'_>) -> Result<Pmv, Unread> {
    let mut pmv = Pmv::new();
    for value in pmv.values.iter_mut() {
        *value = case.number()?;
    }
    Ok(pmv)
}

/// `VECTOR NEW_PMV DELTA RANGE`.
pub(crate) fn reconstructed(case: &mut Cursor<'_>) -> Result<ReconstructedComponent, Unread> {
    Ok(ReconstructedComponent {
        vector_prime: case.number()?,
        new_pmv: case.number()?,
        delta: case.number()?,
        range: case.number()?,
    })
}

/// `ANSWER` or the like: any i32.
pub(crate) fn number(case: &mut Cursor<'_>) -> Result<i64, Unread> {
    Ok(i64::from(case.number::<i32>()?))
}
