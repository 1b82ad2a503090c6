//! ISO/IEC 13818-2, 7.6.3.1, 7.6.3.3, 7.6.3.4 and 7.7.5.1 once more, on predictors that are lent: a loop over macroblocks holds the record,
//! and each call updates it there. A call here copies the record out, makes the call by value, and stores what that gives. The twin by value
//! stays, since docs/SCOPE.md asks for both.
ghost use Rattle.std.specs.Prelude.{◌≡◌, false};
ghost use Rattle.std.specs.Result.{result_ok, result_err};
ghost use Rattle.combine_predictions.specs.Refusals.{value_unless};
ghost use Rattle.pmv.specs.Predictors.{predictor, stored, pair_of, zeroed};
ghost use Rattle.pmv.specs.Vector.{ported, part_refusal, part, decoded, vector_refusal, components, reconstructed};
ghost use Rattle.pmv.specs.Update.{update_refusal, update_outcome, updated, spatial_temporal_reset};

use crate::component::{ReconstructedComponent, VectorRefusal};
use crate::kinds::{
    Component, Direction, MvFormat, PictureCodingType, PictureStructure, VectorIndex,
};
use crate::predictors::Pmv;
use crate::update::{
    PmvUpdateContext, PmvUpdateOutcome, UpdateRefusal, spatial_temporal_reset_applied,
    updated_predictors,
};
use crate::vector::{
    MotionVector, VectorComponents, decoded_motion_vector, reconstructed_motion_vector,
};

impl Pmv {
    /// PMV\[r\]\[s\]\[t\].
    pub fn get(&self, r: VectorIndex, s: Direction, t: Component) -> i32
        ensures { result ≡ predictor self.now r s t }
    {
        self.predictor(r, s, t)
    }

    /// `value` becomes PMV\[r\]\[s\]\[t\].
    pub fn set(&mut self, r: VectorIndex, s: Direction, t: Component, value: i32)
        ensures { self.new ≡ stored self.old r s t value }
    {
        *self = self.with(r, s, t, value);
    }

    /// All eight become zero.
    pub fn reset(&mut self)
        ensures { self.new ≡ zeroed }
    {
        *self = self.cleared();
    }
}

/// One component, never halved. A refusal changes no predictor.
pub fn decode_motion_vector(
    pmv: &mut Pmv,
    r: VectorIndex,
    s: Direction,
    t: Component,
    motion_code: i32,
    motion_residual: Option<u8>,
    f_code: u8,
) -> Result<ReconstructedComponent, VectorRefusal>
    ensures answer { result ≡ (decoded pmv.old r s t f_code motion_code motion_residual false ported).answer }
    ensures predictors { pmv.new ≡ (decoded pmv.old r s t f_code motion_code motion_residual false ported).pmv }
    ensures refusal { result_err result ≡ part_refusal pmv.old r s t f_code motion_code motion_residual false ported }
    ensures value { result_ok result ≡ value_unless (result_err result) (part pmv.old r s t f_code motion_code motion_residual false) }
{
    let d = decoded_motion_vector(*pmv, r, s, t, motion_code, motion_residual, f_code);
    *pmv = d.pmv;
    d.answer
}

/// A vector: the horizontal component, then the vertical one. Where the vertical one is refused, the new horizontal predictor remains.
pub fn reconstruct_motion_vector(
    pmv: &mut Pmv,
    mv: MotionVector,
    r: VectorIndex,
    s: Direction,
    f_code_horiz: u8,
    f_code_vert: u8,
    mv_format: MvFormat,
    picture: PictureStructure,
) -> Result<VectorComponents, VectorRefusal>
    ensures answer { result ≡ (reconstructed pmv.old mv r s f_code_horiz f_code_vert mv_format picture ported).answer }
    ensures predictors { pmv.new ≡ (reconstructed pmv.old mv r s f_code_horiz f_code_vert mv_format picture ported).pmv }
    ensures refusal { result_err result ≡ vector_refusal (pair_of pmv.old r s) mv f_code_horiz f_code_vert mv_format picture ported }
    ensures value { result_ok result ≡ value_unless (result_err result) (components (pair_of pmv.old r s) mv f_code_horiz f_code_vert mv_format picture) }
{
    let d = reconstructed_motion_vector(
        *pmv,
        mv,
        r,
        s,
        f_code_horiz,
        f_code_vert,
        mv_format,
        picture,
    );
    *pmv = d.pmv;
    d.answer
}

/// What Tables 7-10 and 7-11 say becomes of the predictors after a macroblock. A refusal changes none.
pub fn update_predictors(
    pmv: &mut Pmv,
    ctx: PmvUpdateContext,
) -> Result<PmvUpdateOutcome, UpdateRefusal>
    ensures answer { result ≡ (updated pmv.old ctx).answer }
    ensures predictors { pmv.new ≡ (updated pmv.old ctx).pmv }
    ensures refusal { result_err result ≡ update_refusal ctx }
    ensures value { result_ok result ≡ value_unless (result_err result) (update_outcome ctx) }
{
    let u = updated_predictors(*pmv, ctx);
    *pmv = u.pmv;
    u.answer
}

/// All predictors become zero where a macroblock of a P or B picture is predicted spatially alone; whether they did.
pub fn apply_spatial_temporal_reset(
    pmv: &mut Pmv,
    picture_coding_type: PictureCodingType,
    spatial_temporal_weight_class: u8,
) -> bool
    ensures answer { result ≡ (spatial_temporal_reset pmv.old picture_coding_type spatial_temporal_weight_class).applied }
    ensures predictors { pmv.new ≡ (spatial_temporal_reset pmv.old picture_coding_type spatial_temporal_weight_class).pmv }
{
    let r = spatial_temporal_reset_applied(
        *pmv,
        picture_coding_type,
        spatial_temporal_weight_class,
    );
    *pmv = r.pmv;
    r.applied
}
