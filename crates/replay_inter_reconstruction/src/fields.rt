//! The fields of a line that have a meaning together.
use inter_reconstruction::motion::{FieldVector, FieldVectorPair, MotionVectorPel};
use lists::{Cursor, Unread};

/// `HORIZONTAL VERTICAL`.
fn vector(case: &mut Cursor<'_>) -> Result<MotionVectorPel, Unread> {
    Ok(MotionVectorPel {
        horizontal: case.number()?,
        vertical: case.number()?,
    })
}

/// `HORIZONTAL VERTICAL FIELD`.
fn field_vector(case: &mut Cursor<'_>) -> Result<FieldVector, Unread> {
    Ok(FieldVector {
        vector: vector(case)?,
        reference_field: case.kind()?,
    })
}

/// That of the top field, then that of the bottom field.
fn field_vectors(case: &mut Cursor<'_>) -> Result<FieldVectorPair, Unread> {
    Ok(FieldVectorPair {
        top: field_vector(case)?,
        bottom: field_vector(case)?,
    })
}

/// `PRESENT HORIZONTAL VERTICAL`.
pub(crate) fn frame_direction(case: &mut Cursor<'_>) -> Result<Option<MotionVectorPel>, Unread> {
    if !case.present(2)? {
        return Ok(None);
    }
    Ok(Some(vector(case)?))
}

/// `PRESENT HORIZONTAL VERTICAL FIELD HORIZONTAL VERTICAL FIELD`.
pub(crate) fn field_direction(case: &mut Cursor<'_>) -> Result<Option<FieldVectorPair>, Unread> {
    if !case.present(6)? {
        return Ok(None);
    }
    Ok(Some(field_vectors(case)?))
}
