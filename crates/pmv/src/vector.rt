//! ISO/IEC 13818-2, 7.6.3.1: components and vectors are decoded against the predictors, which take the new values.
ghost use Rattle.std.specs.Prelude.{◌≡◌, false};
ghost use Rattle.std.specs.Result.{result_ok, result_err};
ghost use Rattle.combine_predictions.specs.Refusals.{value_unless};
ghost use Rattle.pmv.specs.Predictors.{pair_of};
ghost use Rattle.pmv.specs.Vector.{ported, part_refusal, part, decoded, vector_refusal, components, reconstructed_pair, reconstructed};
ghost use Rattle.pmv.specs.inner.Steps.{joined};

use crate::component::{ReconstructedComponent, VectorRefusal, reconstruct_component};
use crate::kinds::{Component, Direction, MvFormat, PictureStructure, VectorIndex};
use crate::predictors::{Pmv, PredictorPair};

/// What the stream has of a vector: a motion_code and a motion_residual for each component.
#[derive(Clone, Copy, Debug, PartialEq, Eq)]
pub struct MotionVector {
    pub motion_code_horiz: i32,
    pub motion_residual_horiz: Option<u8>,
    pub motion_code_vert: i32,
    pub motion_residual_vert: Option<u8>,
}

/// The answer for a component, and the predictors after it.
#[derive(Clone, Copy, Debug, PartialEq, Eq)]
pub struct DecodedComponent {
    pub answer: Result<ReconstructedComponent, VectorRefusal>,
    pub pmv: Pmv,
}

/// Both components of a vector.
#[derive(Clone, Copy, Debug, PartialEq, Eq)]
pub struct VectorComponents {
    pub horizontal: ReconstructedComponent,
    pub vertical: ReconstructedComponent,
}

/// The answer for a vector, and its two predictors after it.
#[derive(Clone, Copy, Debug, PartialEq, Eq)]
pub struct DecodedPair {
    pub answer: Result<VectorComponents, VectorRefusal>,
    pub predictors: PredictorPair,
}

/// The answer for a vector, and all predictors after it.
#[derive(Clone, Copy, Debug, PartialEq, Eq)]
pub struct DecodedVector {
    pub answer: Result<VectorComponents, VectorRefusal>,
    pub pmv: Pmv,
}

/// One component against its predictor, which takes the new value unless the component is refused; never halved, as for a frame vector.
#[tactic(auto, unfolding(crate::specs::Component::halves, crate::specs::Vector::decoded))]
pub fn decoded_motion_vector(
    pmv: Pmv,
    r: VectorIndex,
    s: Direction,
    t: Component,
    motion_code: i32,
    motion_residual: Option<u8>,
    f_code: u8,
) -> DecodedComponent
    ensures decoding { result ≡ decoded pmv r s t f_code motion_code motion_residual false ported }
    ensures refusal { result_err result.answer ≡ part_refusal pmv r s t f_code motion_code motion_residual false ported }
    ensures value { result_ok result.answer ≡ value_unless (result_err result.answer) (part pmv r s t f_code motion_code motion_residual false) }
{
    let prior = pmv.predictor(r, s, t);
    match reconstruct_component(
        motion_code,
        motion_residual,
        f_code,
        prior,
        MvFormat::Frame,
        PictureStructure::Frame,
        t,
    ) {
        Err(refusal) => DecodedComponent {
            answer: Err(refusal),
            pmv: pmv,
        },
        Ok(c) => DecodedComponent {
            answer: Ok(c),
            pmv: pmv.with(r, s, t, c.new_pmv),
        },
    }
}

/// The vertical component's answer, after the horizontal component was stored.
fn with_vertical(
    kept: PredictorPair,
    horizontal: ReconstructedComponent,
    vertical: Result<ReconstructedComponent, VectorRefusal>,
) -> DecodedPair
    ensures { result ≡ joined kept horizontal vertical }
{
    match vertical {
        Err(refusal) => DecodedPair {
            answer: Err(refusal),
            predictors: kept,
        },
        Ok(c) => DecodedPair {
            answer: Ok(VectorComponents {
                horizontal: horizontal,
                vertical: c,
            }),
            predictors: PredictorPair {
                horizontal: kept.horizontal,
                vertical: c.new_pmv,
            },
        },
    }
}

/// A vector against its two predictors: the horizontal component, then the vertical one. Where the vertical one is refused, the new
/// horizontal predictor remains. A caller that holds the record elsewhere need copy no more of it than these two.
#[tactic(auto, unfolding(crate::specs::Vector::reconstructed_pair))]
pub fn reconstructed_pair(
    prior: PredictorPair,
    mv: MotionVector,
    f_code_horiz: u8,
    f_code_vert: u8,
    mv_format: MvFormat,
    picture: PictureStructure,
) -> DecodedPair
    ensures reconstruction { result ≡ reconstructed_pair prior mv f_code_horiz f_code_vert mv_format picture ported }
    ensures refusal { result_err result.answer ≡ vector_refusal prior mv f_code_horiz f_code_vert mv_format picture ported }
    ensures value { result_ok result.answer ≡ value_unless (result_err result.answer) (components prior mv f_code_horiz f_code_vert mv_format picture) }
{
    match reconstruct_component(
        mv.motion_code_horiz,
        mv.motion_residual_horiz,
        f_code_horiz,
        prior.horizontal,
        mv_format,
        picture,
        Component::Horizontal,
    ) {
        Err(refusal) => DecodedPair {
            answer: Err(refusal),
            predictors: prior,
        },
        Ok(c) => {
            let kept = PredictorPair {
                horizontal: c.new_pmv,
                vertical: prior.vertical,
            };
            let vertical = reconstruct_component(
                mv.motion_code_vert,
                mv.motion_residual_vert,
                f_code_vert,
                prior.vertical,
                mv_format,
                picture,
                Component::Vertical,
            );
            with_vertical(kept, c, vertical)
        }
    }
}

/// A vector against the record.
#[tactic(auto, unfolding(crate::specs::Vector::reconstructed))]
pub fn reconstructed_motion_vector(
    pmv: Pmv,
    mv: MotionVector,
    r: VectorIndex,
    s: Direction,
    f_code_horiz: u8,
    f_code_vert: u8,
    mv_format: MvFormat,
    picture: PictureStructure,
) -> DecodedVector
    ensures reconstruction { result ≡ reconstructed pmv mv r s f_code_horiz f_code_vert mv_format picture ported }
    ensures refusal { result_err result.answer ≡ vector_refusal (pair_of pmv r s) mv f_code_horiz f_code_vert mv_format picture ported }
    ensures value { result_ok result.answer ≡ value_unless (result_err result.answer) (components (pair_of pmv r s) mv f_code_horiz f_code_vert mv_format picture) }
{
    let prior = pmv.pair(r, s);
    let decoded = reconstructed_pair(prior, mv, f_code_horiz, f_code_vert, mv_format, picture);
    let after = decoded.predictors;
    let answer = decoded.answer;
    DecodedVector {
        answer: answer,
        pmv: pmv.with_pair(r, s, after),
    }
}
