//! The update and the vector call behind C entry points, for the benchmark alone: no part of the card's interface.
#![tactic(auto)]

ghost use Rattle.std.specs.Prelude.{◌≡◌};
ghost use Rattle.pmv.specs.Update.{updated};
ghost use Rattle.pmv.specs.Vector.{ported, reconstructed};
ghost use Rattle.bench_pmv.specs.Inputs.{structure_of, format_of, index_of, direction_of, residual_of, context_of, vector_of, pmv_of, update_code, vector_code, components_or};

use pmv::component::VectorRefusal;
use pmv::kinds::{Component, Direction, MvFormat, PictureStructure, PredictionType, VectorIndex};
use pmv::predictors::{Pmv, PredictorPair};
use pmv::update::{PmvUpdateContext, PmvUpdateOutcome, UpdateRefusal};
use pmv::vector::{MotionVector, VectorComponents};

fn residual_of(n: u32) -> Option<u8>
    ensures { result ≡ residual_of n }
{
    u8::try_from(n).ok()
}

// One match each: a function for both, over `Into<u32>`, is no shorter, since the numbers of an acceptance differ too.

/// The outcome's number, or 16 and the refusal's.
fn update_code(answer: Result<PmvUpdateOutcome, UpdateRefusal>) -> u32
    ensures { result ≡ update_code answer }
{
    match answer {
        Ok(outcome) => outcome as u32,
        Err(refusal) => 16 + u32::from(refusal),
    }
}

fn vector_code(answer: Result<VectorComponents, VectorRefusal>) -> u32
    ensures { result ≡ vector_code answer }
{
    match answer {
        Ok(_) => 0,
        Err(refusal) => refusal.into(),
    }
}

/// Both components, where there are any.
fn write_vector(answer: Result<VectorComponents, VectorRefusal>, vector: &mut [i32; 2])
    ensures { vector.new ≡ components_or vector.old answer }
{
    match answer {
        Ok(c) => {
            let h = c.horizontal;
            let v = c.vertical;
            *vector = [h.vector_prime, v.vector_prime];
        }
        Err(_) => {}
    }
}

/// `structure` is 0 or 1 for a field picture, `prediction_type` over 3 for none, a flag not 0 for yes. Answers the outcome's number, or 16
/// and the refusal's.
#[unsafe(no_mangle)]
pub extern "C" fn fozdrik_bench_update(
    structure: u32,
    prediction_type: u32,
    forward: u32,
    backward: u32,
    intra: u32,
    concealment: u32,
    predictors: &mut [i32; 8],
) -> u32
    ensures code { result ≡ update_code (updated (pmv_of predictors.old) (context_of structure prediction_type forward backward intra concealment)).answer }
    ensures buffer { predictors.new ≡ (updated (pmv_of predictors.old) (context_of structure prediction_type forward backward intra concealment)).pmv.values }
{
    let values = *predictors;
    let update = pmv::update::updated_predictors(
        Pmv { values: values },
        PmvUpdateContext {
            picture_structure: PictureStructure::try_from(structure).unwrap_or(
                PictureStructure::Frame,
            ),
            prediction_type: PredictionType::try_from(prediction_type).ok(),
            macroblock_motion_forward: forward != 0,
            macroblock_motion_backward: backward != 0,
            macroblock_intra: intra != 0,
            concealment_motion_vectors: concealment != 0,
        },
    );
    let kept = update.pmv;
    let after = kept.values;
    *predictors = after;
    let answer = update.answer;
    update_code(answer)
}

/// `r`, `s` and `format` are 0 for first, forward and field, `structure` is 0 or 1 for a field picture, a residual over 255 is absent.
/// Answers 0 and writes both components of the vector, or answers the refusal's number.
#[unsafe(no_mangle)]
pub extern "C" fn fozdrik_bench_vector(
    r: u32,
    s: u32,
    code_h: i32,
    residual_h: u32,
    code_v: i32,
    residual_v: u32,
    f_code_h: u8,
    f_code_v: u8,
    format: u32,
    structure: u32,
    predictors: &mut [i32; 8],
    vector: &mut [i32; 2],
) -> u32
    ensures code { result ≡ vector_code (reconstructed (pmv_of predictors.old) (vector_of code_h residual_h code_v residual_v) (index_of r) (direction_of s) f_code_h f_code_v (format_of format) (structure_of structure) ported).answer }
    ensures buffer { predictors.new ≡ (reconstructed (pmv_of predictors.old) (vector_of code_h residual_h code_v residual_v) (index_of r) (direction_of s) f_code_h f_code_v (format_of format) (structure_of structure) ported).pmv.values }
    ensures components { vector.new ≡ components_or vector.old (reconstructed (pmv_of predictors.old) (vector_of code_h residual_h code_v residual_v) (index_of r) (direction_of s) f_code_h f_code_v (format_of format) (structure_of structure) ported).answer }
{
    let index = VectorIndex::try_from(r).unwrap_or(VectorIndex::Second);
    let direction = Direction::try_from(s).unwrap_or(Direction::Backward);
    let h = pmv::predictors::place_of(index, direction, Component::Horizontal);
    let v = pmv::predictors::place_of(index, direction, Component::Vertical);
    let decoded = pmv::vector::reconstructed_pair(
        PredictorPair {
            horizontal: predictors[h],
            vertical: predictors[v],
        },
        MotionVector {
            motion_code_horiz: code_h,
            motion_residual_horiz: residual_of(residual_h),
            motion_code_vert: code_v,
            motion_residual_vert: residual_of(residual_v),
        },
        f_code_h,
        f_code_v,
        MvFormat::try_from(format).unwrap_or(MvFormat::Frame),
        PictureStructure::try_from(structure).unwrap_or(PictureStructure::Frame),
    );
    let after = decoded.predictors;
    let after_h = after.horizontal;
    let after_v = after.vertical;
    predictors[h] = after_h;
    predictors[v] = after_v;
    let answer = decoded.answer;
    write_vector(answer, vector);
    vector_code(answer)
}
