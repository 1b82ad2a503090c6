//! The card's C entry points for vectors and predictors, on numbers and bytes.
ghost use Rattle.std.specs.Prelude.{◌≡◌, cond, ◌++◌, [], ◌∷◌, ◌+◌, ◌<◌, ◌≤◌, length};
ghost use Rattle.std.specs.Result.{result_err};
ghost use Rattle.combine_predictions.specs.Refusals.{refusal_number};
ghost use Rattle.pmv.specs.Predictors.{pair_of};
ghost use Rattle.pmv.specs.Refusals.{vector_number, update_number};
ghost use Rattle.pmv.specs.Update.{update_refusal, update_outcome, outcome_number, updated};
ghost use Rattle.entry_points.specs.Layout.{bytes_of, number_at, pair_bytes, predictors_of, predictor_bytes, with_pair};
ghost use Rattle.entry_points.specs.Entries.{call_number, unless_number, residual_of, type_of, vector_known, update_known, index_of, direction_of, format_of, structure_of, motion_vector_of, context_of, vector_from, vector_bytes};
ghost use Rattle.entry_points.specs.inner.Outcomes.{outcome_byte};

use crate::numbers::code_of;
use crate::prediction::{NO_MEANING, is_yes};
use pmv::component::VectorRefusal;
use pmv::kinds::{
    Component, Direction, MvFormat, PictureStructure, PredictionType, VectorIndex, flag_from_number,
};
use pmv::predictors::{Pmv, PredictorPair, place_of};
use pmv::update::{PmvUpdateContext, PmvUpdateOutcome, UpdateRefusal, updated_predictors};
use pmv::vector::{MotionVector, VectorComponents, reconstructed_pair};

// ---- the buffers: 32-bit numbers in two's complement, each as four bytes, the lowest first

/// The number whose first byte is at `at`.
#[tactic(auto, unfolding(crate::specs::Layout::number_at))]
fn load(bytes: &[u8], at: usize) -> i32
    requires { at + 4 ≤ length bytes.now }
    ensures { result ≡ number_at bytes.now at }
{
    i32::from_le_bytes([bytes[at], bytes[at + 1], bytes[at + 2], bytes[at + 3]])
}

/// Two numbers into eight bytes, which are a slice since a pair's place in the predictors is one. Each is copied by itself: by way of an array
/// of eight, a vector took 191 instructions in place of 187.
#[tactic(auto, unfolding(crate::specs::Layout::bytes_of))]
fn store_pair(horizontal: i32, vertical: i32, out: &mut [u8])
    requires { length out.old ≡ 8 }
    ensures { out.new ≡ pair_bytes horizontal vertical }
{
    out[0..4].copy_from_slice(&horizontal.to_le_bytes());
    out[4..8].copy_from_slice(&vertical.to_le_bytes());
}

/// The 32 bytes of all predictors.
fn predictor_bytes(p: Pmv) -> [u8; 32]
    ensures { result ≡ predictor_bytes p }
{
    let words = p.values.map(i32::to_le_bytes);
    let mut bytes = [0; 32];
    bytes.copy_from_slice(words.as_flattened());
    bytes
}

/// PMV\[r\]\[s\]\[1:0\] in the 32 bytes of the predictors.
fn load_pair(bytes: &[u8; 32], r: VectorIndex, s: Direction) -> PredictorPair
    ensures { result ≡ pair_of (predictors_of bytes.now) r s }
{
    let k = 4 * place_of(r, s, Component::Horizontal);
    PredictorPair {
        horizontal: load(bytes, k),
        vertical: load(bytes, k + 4),
    }
}

/// All predictors.
#[tactic(auto, unfolding(crate::specs::Layout::predictors_of))]
fn load_predictors(bytes: &[u8; 32]) -> Pmv
    ensures { result ≡ predictors_of bytes.now }
{
    Pmv {
        values: [
            load(bytes, 0),
            load(bytes, 4),
            load(bytes, 8),
            load(bytes, 12),
            load(bytes, 16),
            load(bytes, 20),
            load(bytes, 24),
            load(bytes, 28),
        ],
    }
}

/// PMV\[r\]\[s\]\[1:0\] replaced in the 32 bytes of the predictors.
#[tactic(auto, unfolding(crate::specs::Layout::with_pair), using(crate::proofs::Words::replaced_is))]
fn replace_pair(pair: PredictorPair, r: VectorIndex, s: Direction, out: &mut [u8; 32])
    ensures { out.new ≡ with_pair out.old r s pair }
{
    let k = 4 * place_of(r, s, Component::Horizontal);
    store_pair(pair.horizontal, pair.vertical, &mut out[k..k + 8]);
}

// ---- what the numbers mean, and whether those that are read have a meaning. All are tested together, by `&`, and read after: with a `?` at
// each, an update took 7 instructions more, and a jump depended on each flag.

/// A residual that is absent is not read.
#[tactic(auto, unfolding(crate::specs::Entries::residual_of))]
fn residual_of(present: u32, residual: u8) -> Option<u8>
    ensures { result ≡ residual_of present residual }
{
    if is_yes(present) {
        Some(residual)
    } else {
        None
    }
}

/// A motion type that is absent is not read.
#[tactic(auto, unfolding(crate::specs::Entries::type_of))]
fn type_of(present: u32, number: u32) -> Option<PredictionType>
    ensures { result ≡ type_of present number }
{
    if !is_yes(present) {
        return None;
    }
    Some(PredictionType::try_from(number).unwrap_or(PredictionType::FieldBased))
}

/// Whether the numbers that a vector is read with have a meaning, where both buffers have their lengths.
#[tactic(auto, unfolding(crate::specs::Entries::vector_known), using(crate::proofs::Reading::known_ok, crate::proofs::Reading::with_true))]
fn vector_known(
    r: u32,
    s: u32,
    horiz_present: u32,
    vert_present: u32,
    mv_format: u32,
    picture_structure: u32,
) -> bool
    ensures { result ≡ vector_known r s horiz_present vert_present mv_format picture_structure 32 8 }
{
    let index = VectorIndex::try_from(r);
    let direction = Direction::try_from(s);
    let horiz = flag_from_number(horiz_present);
    let vert = flag_from_number(vert_present);
    let format = MvFormat::try_from(mv_format);
    let structure = PictureStructure::try_from(picture_structure);
    (index.is_ok() & (direction.is_ok() & (horiz.is_ok() & vert.is_ok())))
        & (format.is_ok() & structure.is_ok())
}

/// Whether those of an update have, and the buffers their lengths. A motion type that is absent is not read. The nine parameters are those of
/// the C call.
#[tactic(auto, unfolding(crate::specs::Entries::update_known), using(crate::proofs::Reading::known_ok))]
fn update_known(
    picture_structure: u32,
    type_present: u32,
    prediction_type: u32,
    forward: u32,
    backward: u32,
    intra: u32,
    concealment: u32,
    predictors: usize,
    outcome: usize,
) -> bool
    ensures { result ≡ update_known picture_structure type_present prediction_type forward backward intra concealment predictors outcome }
{
    let structure = PictureStructure::try_from(picture_structure);
    let present = flag_from_number(type_present);
    let kind = PredictionType::try_from(prediction_type);
    let f = flag_from_number(forward);
    let b = flag_from_number(backward);
    let i = flag_from_number(intra);
    let c = flag_from_number(concealment);
    (structure.is_ok() & (present.is_ok() & (!is_yes(type_present) | kind.is_ok())))
        & (((f.is_ok() & b.is_ok()) & (i.is_ok() & c.is_ok()))
            & ((predictors == 32) & (outcome == 1)))
}

// ---- on buffers of the right lengths

/// Both components, where the vector is accepted.
fn store_vector(answer: Result<VectorComponents, VectorRefusal>, out: &mut [u8; 8])
    ensures { out.new ≡ vector_bytes answer out.old }
{
    if let Ok(c) = answer {
        let h = c.horizontal;
        let v = c.vertical;
        store_pair(h.vector_prime, v.vector_prime, out);
    }
}

/// A vector, on its buffers. Where the vertical part is refused, the new horizontal predictor remains. The nine parameters are those of the
/// layer's call, with the place of its pair, and both buffers.
#[tactic(auto, using(crate::proofs::Reading::code_is))]
fn vector_in_bytes(
    r: VectorIndex,
    s: Direction,
    mv: MotionVector,
    f_code_horiz: u8,
    f_code_vert: u8,
    mv_format: MvFormat,
    picture: PictureStructure,
    predictors: &mut [u8; 32],
    vector: &mut [u8; 8],
) -> u32
    ensures number { result ≡ refusal_number vector_number (result_err (vector_from predictors.old r s mv f_code_horiz f_code_vert mv_format picture).answer) }
    ensures predictors { predictors.new ≡ with_pair predictors.old r s (vector_from predictors.old r s mv f_code_horiz f_code_vert mv_format picture).predictors }
    ensures vector { vector.new ≡ vector_bytes (vector_from predictors.old r s mv f_code_horiz f_code_vert mv_format picture).answer vector.old }
{
    let decoded = reconstructed_pair(
        load_pair(predictors, r, s),
        mv,
        f_code_horiz,
        f_code_vert,
        mv_format,
        picture,
    );
    replace_pair(decoded.predictors, r, s, predictors);
    store_vector(decoded.answer, vector);
    code_of(decoded.answer)
}

/// The byte for the outcome: its number, or what was there where the update is refused.
fn outcome_byte(answer: Result<PmvUpdateOutcome, UpdateRefusal>, before: u8) -> u8
    ensures { result ≡ outcome_byte answer before }
{
    match answer {
        Ok(row) => row.into(),
        Err(_) => before,
    }
}

/// An update, on its buffers. Both are written either way, a refusal with what they hold, so that no jump depends on the answer.
#[tactic(auto, using(crate::proofs::Reading::code_is))]
fn update_in_bytes(ctx: PmvUpdateContext, predictors: &mut [u8; 32], outcome: &mut [u8; 1]) -> u32
    ensures number { result ≡ refusal_number update_number (update_refusal ctx) }
    ensures predictors { predictors.new ≡ unless_number result (predictor_bytes (updated (predictors_of predictors.old) ctx).pmv) predictors.old }
    ensures outcome { outcome.new ≡ unless_number result (outcome_number (update_outcome ctx) ∷ []) outcome.old }
{
    let update = updated_predictors(load_predictors(predictors), ctx);
    *predictors = predictor_bytes(update.pmv);
    outcome[0] = outcome_byte(update.answer, outcome[0]);
    code_of(update.answer)
}

// ---- the calls

/// A vector's two components against its predictors: 0, or the number of the refusal.
#[tactic(auto, using(crate::proofs::Updates::unless_predictors, crate::proofs::Updates::unless_components))]
pub fn fozdrik_reconstruct_motion_vector(
    r: u32,
    s: u32,
    motion_code_horiz: i32,
    motion_residual_horiz_present: u32,
    motion_residual_horiz: u8,
    motion_code_vert: i32,
    motion_residual_vert_present: u32,
    motion_residual_vert: u8,
    f_code_horiz: u8,
    f_code_vert: u8,
    mv_format: u32,
    picture_structure: u32,
    predictors: &mut [u8],
    vector: &mut [u8],
) -> u32
    ensures number { let known = vector_known r s motion_residual_horiz_present motion_residual_vert_present mv_format picture_structure (length predictors.old) (length vector.old) in
        let coded = motion_vector_of motion_code_horiz motion_residual_horiz_present motion_residual_horiz motion_code_vert motion_residual_vert_present motion_residual_vert in
        let decoded = vector_from predictors.old (index_of r) (direction_of s) coded f_code_horiz f_code_vert (format_of mv_format) (structure_of picture_structure) in
        result ≡ call_number vector_number known (result_err decoded.answer) }
    ensures predictors { let known = vector_known r s motion_residual_horiz_present motion_residual_vert_present mv_format picture_structure (length predictors.old) (length vector.old) in
        let coded = motion_vector_of motion_code_horiz motion_residual_horiz_present motion_residual_horiz motion_code_vert motion_residual_vert_present motion_residual_vert in
        let decoded = vector_from predictors.old (index_of r) (direction_of s) coded f_code_horiz f_code_vert (format_of mv_format) (structure_of picture_structure) in
        predictors.new ≡ cond known (with_pair predictors.old (index_of r) (direction_of s) decoded.predictors) predictors.old }
    ensures vector { let known = vector_known r s motion_residual_horiz_present motion_residual_vert_present mv_format picture_structure (length predictors.old) (length vector.old) in
        let coded = motion_vector_of motion_code_horiz motion_residual_horiz_present motion_residual_horiz motion_code_vert motion_residual_vert_present motion_residual_vert in
        let decoded = vector_from predictors.old (index_of r) (direction_of s) coded f_code_horiz f_code_vert (format_of mv_format) (structure_of picture_structure) in
        vector.new ≡ cond known (vector_bytes decoded.answer vector.old) vector.old }
{
    let Some(predictors) = predictors.as_mut_array::<32>() else {
        return NO_MEANING;
    };
    let Some(vector) = vector.as_mut_array::<8>() else {
        return NO_MEANING;
    };
    if !vector_known(
        r,
        s,
        motion_residual_horiz_present,
        motion_residual_vert_present,
        mv_format,
        picture_structure,
    ) {
        return NO_MEANING;
    }
    vector_in_bytes(
        VectorIndex::try_from(r).unwrap_or(VectorIndex::First),
        Direction::try_from(s).unwrap_or(Direction::Forward),
        MotionVector {
            motion_code_horiz: motion_code_horiz,
            motion_residual_horiz: residual_of(
                motion_residual_horiz_present,
                motion_residual_horiz,
            ),
            motion_code_vert: motion_code_vert,
            motion_residual_vert: residual_of(motion_residual_vert_present, motion_residual_vert),
        },
        f_code_horiz,
        f_code_vert,
        MvFormat::try_from(mv_format).unwrap_or(MvFormat::Field),
        PictureStructure::try_from(picture_structure).unwrap_or(PictureStructure::TopField),
        predictors,
        vector,
    )
}

/// The predictors after a macroblock, and the outcome's number in one byte: 0, or the number of the refusal.
#[tactic(auto, using(crate::proofs::Updates::unless_updated, crate::proofs::Updates::unless_outcome))]
pub fn fozdrik_update_predictors(
    picture_structure: u32,
    prediction_type_present: u32,
    prediction_type: u32,
    macroblock_motion_forward: u32,
    macroblock_motion_backward: u32,
    macroblock_intra: u32,
    concealment_motion_vectors: u32,
    predictors: &mut [u8],
    outcome: &mut [u8],
) -> u32
    ensures number { let known = update_known picture_structure prediction_type_present prediction_type macroblock_motion_forward macroblock_motion_backward macroblock_intra concealment_motion_vectors (length predictors.old) (length outcome.old) in
        let context = context_of picture_structure prediction_type_present prediction_type macroblock_motion_forward macroblock_motion_backward macroblock_intra concealment_motion_vectors in
        result ≡ call_number update_number known (update_refusal context) }
    ensures predictors { let context = context_of picture_structure prediction_type_present prediction_type macroblock_motion_forward macroblock_motion_backward macroblock_intra concealment_motion_vectors in
        predictors.new ≡ unless_number result (predictor_bytes (updated (predictors_of predictors.old) context).pmv) predictors.old }
    ensures outcome { let context = context_of picture_structure prediction_type_present prediction_type macroblock_motion_forward macroblock_motion_backward macroblock_intra concealment_motion_vectors in
        outcome.new ≡ unless_number result (outcome_number (update_outcome context) ∷ []) outcome.old }
{
    if !update_known(
        picture_structure,
        prediction_type_present,
        prediction_type,
        macroblock_motion_forward,
        macroblock_motion_backward,
        macroblock_intra,
        concealment_motion_vectors,
        predictors.len(),
        outcome.len(),
    ) {
        return NO_MEANING;
    }
    // Both lengths are tested above, with the numbers: by these alone, an update took 128 instructions for 116.
    let (Some(predictors), Some(outcome)) = (predictors.as_mut_array(), outcome.as_mut_array())
    else {
        return NO_MEANING;
    };
    let structure = PictureStructure::try_from(picture_structure);
    update_in_bytes(
        PmvUpdateContext {
            picture_structure: structure.unwrap_or(PictureStructure::TopField),
            prediction_type: type_of(prediction_type_present, prediction_type),
            macroblock_motion_forward: is_yes(macroblock_motion_forward),
            macroblock_motion_backward: is_yes(macroblock_motion_backward),
            macroblock_intra: is_yes(macroblock_intra),
            concealment_motion_vectors: is_yes(concealment_motion_vectors),
        },
        predictors,
        outcome,
    )
}
