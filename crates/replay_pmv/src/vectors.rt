//! Vectors, decoded against a record.
use crate::fields;
use crate::fields::NO_COMPONENT;
use crate::record::Call;
use lists::{Cursor, Unread};
use pmv::component::ReconstructedComponent;
use pmv::kinds::{Component, Direction, MvFormat, PictureStructure, VectorIndex};
use pmv::predictors::Pmv;
use pmv::vector::{MotionVector, VectorComponents};
use tally::number_and_value;

/// Zeros, as a list has them where a vector is refused.
const NO_COMPONENTS: VectorComponents = VectorComponents {
    horizontal: NO_COMPONENT,
    vertical: NO_COMPONENT,
};

/// `R S T CODE PRESENT RESIDUAL F_CODE`.
#[derive(Clone, Copy)]
pub(crate) struct Decoding {
    r: VectorIndex,
    s: Direction,
    t: Component,
    motion_code: i32,
    motion_residual: Option<u8>,
    f_code: u8,
}

impl Call for Decoding {
    type Answer = (i64, ReconstructedComponent);

    fn read(case: &mut Cursor<'_>) -> Result<Self, Unread> {
        Ok(Decoding {
            r: case.kind()?,
            s: case.kind()?,
            t: fields::component(case)?,
            motion_code: case.number()?,
            motion_residual: fields::residual(case)?,
            f_code: case.number()?,
        })
    }

    /// `ANSWER VECTOR NEW_PMV DELTA RANGE`.
    fn answer(case: &mut Cursor<'_>) -> Result<Self::Answer, Unread> {
        Ok((fields::number(case)?, fields::reconstructed(case)?))
    }

    fn by_value(self, pmv: Pmv) -> (Self::Answer, Pmv) {
        let d = pmv::vector::decoded_motion_vector(
            pmv,
            self.r,
            self.s,
            self.t,
            self.motion_code,
            self.motion_residual,
            self.f_code,
        );
        (number_and_value(d.answer, NO_COMPONENT), d.pmv)
    }

    fn lent(self, pmv: &mut Pmv) -> Self::Answer {
        let answer = pmv::lent::decode_motion_vector(
            pmv,
            self.r,
            self.s,
            self.t,
            self.motion_code,
            self.motion_residual,
            self.f_code,
        );
        number_and_value(answer, NO_COMPONENT)
    }
}

/// `R S CODE_H PRESENT_H RESIDUAL_H CODE_V PRESENT_V RESIDUAL_V F_CODE_H F_CODE_V FORMAT STRUCTURE`.
#[derive(Clone, Copy)]
pub(crate) struct Reconstructing {
    r: VectorIndex,
    s: Direction,
    mv: MotionVector,
    f_code_horiz: u8,
    f_code_vert: u8,
    mv_format: MvFormat,
    picture: PictureStructure,
}

impl Call for Reconstructing {
    type Answer = (i64, VectorComponents);

    fn read(case: &mut Cursor<'_>) -> Result<Self, Unread> {
        Ok(Reconstructing {
            r: case.kind()?,
            s: case.kind()?,
            mv: MotionVector {
                motion_code_horiz: case.number()?,
                motion_residual_horiz: fields::residual(case)?,
                motion_code_vert: case.number()?,
                motion_residual_vert: fields::residual(case)?,
            },
            f_code_horiz: case.number()?,
            f_code_vert: case.number()?,
            mv_format: case.kind()?,
            picture: case.kind()?,
        })
    }

    /// `ANSWER VECTOR_H NEW_PMV_H DELTA_H RANGE_H VECTOR_V NEW_PMV_V DELTA_V RANGE_V`.
    fn answer(case: &mut Cursor<'_>) -> Result<Self::Answer, Unread> {
        let number = fields::number(case)?;
        let components = VectorComponents {
            horizontal: fields::reconstructed(case)?,
            vertical: fields::reconstructed(case)?,
        };
        Ok((number, components))
    }

    fn by_value(self, pmv: Pmv) -> (Self::Answer, Pmv) {
        let d = pmv::vector::reconstructed_motion_vector(
            pmv,
            self.mv,
            self.r,
            self.s,
            self.f_code_horiz,
            self.f_code_vert,
            self.mv_format,
            self.picture,
        );
        (number_and_value(d.answer, NO_COMPONENTS), d.pmv)
    }

    fn lent(self, pmv: &mut Pmv) -> Self::Answer {
        let answer = pmv::lent::reconstruct_motion_vector(
            pmv,
            self.mv,
            self.r,
            self.s,
            self.f_code_horiz,
            self.f_code_vert,
            self.mv_format,
            self.picture,
        );
        number_and_value(answer, NO_COMPONENTS)
    }
}
