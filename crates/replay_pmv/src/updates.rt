//! Updates and resets of a record.
use crate::fields;
use crate::record::Call;
use lists::{Cursor, Unread};
use pmv::kinds::PictureCodingType;
use pmv::predictors::Pmv;
use pmv::update::{PmvUpdateContext, PmvUpdateOutcome, UpdateRefusal};
use tally::number_and_value;

/// The number of an answer, 0 for acceptance, and its outcome's, 0 where it is refused.
fn numbers_of(answer: Result<PmvUpdateOutcome, UpdateRefusal>) -> (i64, i64) {
    let number = answer.map(|outcome| i64::from(u8::from(outcome)));
    number_and_value(number, 0)
}

/// An update, by what its tables choose by: `STRUCTURE PRESENT TYPE FORWARD BACKWARD INTRA CONCEALMENT`.
impl Call for PmvUpdateContext {
    type Answer = (i64, i64);

    fn read(case: &mut Cursor<'_>) -> Result<Self, Unread> {
        Ok(PmvUpdateContext {
            picture_structure: case.kind()?,
            prediction_type: fields::prediction_type(case)?,
            macroblock_motion_forward: case.flag()?,
            macroblock_motion_backward: case.flag()?,
            macroblock_intra: case.flag()?,
            concealment_motion_vectors: case.flag()?,
        })
    }

    /// `ANSWER OUTCOME`.
    fn answer(case: &mut Cursor<'_>) -> Result<Self::Answer, Unread> {
        Ok((fields::number(case)?, fields::number(case)?))
    }

    fn by_value(self, pmv: Pmv) -> (Self::Answer, Pmv) {
        let u = pmv::update::updated_predictors(pmv, self);
        (numbers_of(u.answer), u.pmv)
    }

    fn lent(self, pmv: &mut Pmv) -> Self::Answer {
        numbers_of(pmv::lent::update_predictors(pmv, self))
    }
}

/// `CODING_TYPE CLASS`.
#[derive(Clone, Copy)]
pub(crate) struct ResettingByClass {
    coding_type: PictureCodingType,
    weight_class: u8,
}

impl Call for ResettingByClass {
    type Answer = i64;

    fn read(case: &mut Cursor<'_>) -> Result<Self, Unread> {
        Ok(ResettingByClass {
            coding_type: fields::coding_type(case)?,
            weight_class: case.number()?,
        })
    }

    /// `APPLIED`.
    fn answer(case: &mut Cursor<'_>) -> Result<Self::Answer, Unread> {
        fields::number(case)
    }

    fn by_value(self, pmv: Pmv) -> (Self::Answer, Pmv) {
        let r = pmv::update::spatial_temporal_reset_applied(
            pmv,
            self.coding_type,
            self.weight_class,
        );
        (i64::from(r.applied), r.pmv)
    }

    fn lent(self, pmv: &mut Pmv) -> Self::Answer {
        let applied = pmv::lent::apply_spatial_temporal_reset(
            pmv,
            self.coding_type,
            self.weight_class,
        );
        i64::from(applied)
    }
}
