//! ISO/IEC 13818-2, 7.6.3.3: the predictors after a macroblock's vectors, by Tables 7-10 and 7-11; and the reset of 7.7.5.1.
ghost use Rattle.std.specs.Prelude.{◌≡◌, cond, ◌≤◌};
ghost use Rattle.pmv.specs.Kinds.{type_number};
ghost use Rattle.pmv.specs.Update.{update_refusal, update_outcome, outcome_number, updated, spatial_temporal_reset};
ghost use Rattle.std.specs.Result.{result_ok, result_err};
ghost use Rattle.combine_predictions.specs.Refusals.{value_unless};
ghost use Rattle.pmv.specs.Refusals.{update_number};
ghost use Rattle.pmv.specs.inner.Rows.{table_row, decided_row, answer_of, carried_out};

use crate::kinds::{PictureCodingType, PictureStructure, PredictionType};
use crate::predictors::{Pmv, chosen};

/// Why an update is refused. Each reason has its number of docs/SCOPE.md.
#[derive(Clone, Copy, Debug, PartialEq, Eq)]
pub enum UpdateRefusal {
    /// An intra macroblock with a motion flag.
    IntraWithMotion = 7,
    /// Not intra, and no motion type.
    TypeMissing = 8,
    /// Frame-based in a field picture.
    FrameBasedInField = 9,
    /// 16 × 8 in a frame picture.
    SixteenByEightInFrame = 10,
    /// Dual prime, and the flags are not forward alone.
    DualPrimeFlags = 11,
    /// A row "(none)" without a motion flag.
    NoneRowFlags = 12,
}

impl From<UpdateRefusal> for u32 {
    ghost from_gives = { λ refusal number. number ≡ update_number refusal };

    fn from(refusal: UpdateRefusal) -> u32 {
        refusal as u32
    }
}

/// What Tables 7-10 and 7-11 choose by.
#[derive(Clone, Copy, Debug, PartialEq, Eq)]
pub struct PmvUpdateContext {
    pub picture_structure: PictureStructure,
    pub prediction_type: Option<PredictionType>,
    pub macroblock_motion_forward: bool,
    pub macroblock_motion_backward: bool,
    pub macroblock_intra: bool,
    pub concealment_motion_vectors: bool,
}

/// Which row of the tables it was.
#[derive(Clone, Copy, Debug, PartialEq, Eq)]
pub enum PmvUpdateOutcome {
    /// Intra with concealment vectors: forward first to forward second.
    IntraConcealmentCopyForwardFirst,
    /// Intra without: all zero.
    IntraResetAll,
    /// First to second in both directions.
    NonIntraCopyBoth,
    NonIntraCopyForward,
    NonIntraCopyBackward,
    /// No motion flag: all zero.
    NonIntraZeroMotionReset,
    /// "(none)".
    NoUpdate,
    /// Dual prime: forward first to forward second.
    DualPrimeCopyForward,
}

/// The answer, and the predictors after the update.
#[derive(Clone, Copy, Debug, PartialEq, Eq)]
pub struct PredictorUpdate {
    pub answer: Result<PmvUpdateOutcome, UpdateRefusal>,
    pub pmv: Pmv,
}

/// Whether the reset was made, and the predictors after it.
#[derive(Clone, Copy, Debug, PartialEq, Eq)]
pub struct SpatialTemporalReset {
    pub applied: bool,
    pub pmv: Pmv,
}

// A row of the tables is a byte: its number, which is the outcome's, or 1 and the refusal's, and above that what it does to the predictors. An
// enum would be matched, and a match is a jump that nothing predicts: four other forms took 119 to 126 instructions an update, in place of 117.

/// First to second, forward.
const COPIES_FORWARD: u8 = 16;
/// First to second, backward.
const COPIES_BACKWARD: u8 = 32;
/// All zero.
const RESETS: u8 = 64;

/// Intra with concealment vectors.
const INTRA_CONCEALMENT: u8 = PmvUpdateOutcome::IntraConcealmentCopyForwardFirst as u8
    + COPIES_FORWARD;
/// Intra without.
const INTRA_RESET: u8 = PmvUpdateOutcome::IntraResetAll as u8 + RESETS;
/// Motion in both directions.
const COPY_BOTH: u8 = PmvUpdateOutcome::NonIntraCopyBoth as u8 + COPIES_FORWARD + COPIES_BACKWARD;
/// Forward alone.
const COPY_FORWARD: u8 = PmvUpdateOutcome::NonIntraCopyForward as u8 + COPIES_FORWARD;
/// Backward alone.
const COPY_BACKWARD: u8 = PmvUpdateOutcome::NonIntraCopyBackward as u8 + COPIES_BACKWARD;
/// No motion flag.
const ZERO_MOTION: u8 = PmvUpdateOutcome::NonIntraZeroMotionReset as u8 + RESETS;
/// "(none)".
const UNCHANGED: u8 = PmvUpdateOutcome::NoUpdate as u8;
/// Dual prime.
const DUAL_PRIME: u8 = PmvUpdateOutcome::DualPrimeCopyForward as u8 + COPIES_FORWARD;
/// No row: refusal 7.
const REFUSED_7: u8 = 1 + UpdateRefusal::IntraWithMotion as u8;
/// No row: refusal 8.
const REFUSED_8: u8 = 1 + UpdateRefusal::TypeMissing as u8;
/// No row: refusal 9.
const REFUSED_9: u8 = 1 + UpdateRefusal::FrameBasedInField as u8;
/// No row: refusal 10.
const REFUSED_10: u8 = 1 + UpdateRefusal::SixteenByEightInFrame as u8;
/// No row: refusal 11.
const REFUSED_11: u8 = 1 + UpdateRefusal::DualPrimeFlags as u8;
/// No row: refusal 12.
const REFUSED_12: u8 = 1 + UpdateRefusal::NoneRowFlags as u8;

/// Tables 7-10 and 7-11: by picture (field, frame), then type (field-based, frame-based, 16 × 8, dual prime), then forward, backward and
/// intra, which counts fastest: eight lines for each picture and type, the first of them without a flag. Concealment and an absent type are
/// decided beside it. A list of 64, in fixed memory; no length stands beside it.
const OUTCOMES: [u8; 64] = [
    ZERO_MOTION, // field picture, field-based
    INTRA_RESET,
    COPY_BACKWARD,
    REFUSED_7,
    COPY_FORWARD,
    REFUSED_7,
    COPY_BOTH,
    REFUSED_7,
    REFUSED_9, // field picture, frame-based
    INTRA_RESET,
    REFUSED_9,
    REFUSED_7,
    REFUSED_9,
    REFUSED_7,
    REFUSED_9,
    REFUSED_7,
    REFUSED_12, // field picture, 16 × 8
    INTRA_RESET,
    UNCHANGED,
    REFUSED_7,
    UNCHANGED,
    REFUSED_7,
    UNCHANGED,
    REFUSED_7,
    REFUSED_11, // field picture, dual prime
    INTRA_RESET,
    REFUSED_11,
    REFUSED_7,
    DUAL_PRIME,
    REFUSED_7,
    REFUSED_11,
    REFUSED_7,
    REFUSED_12, // frame picture, field-based
    INTRA_RESET,
    UNCHANGED,
    REFUSED_7,
    UNCHANGED,
    REFUSED_7,
    UNCHANGED,
    REFUSED_7,
    ZERO_MOTION, // frame picture, frame-based
    INTRA_RESET,
    COPY_BACKWARD,
    REFUSED_7,
    COPY_FORWARD,
    REFUSED_7,
    COPY_BOTH,
    REFUSED_7,
    REFUSED_10, // frame picture, 16 × 8
    INTRA_RESET,
    REFUSED_10,
    REFUSED_7,
    REFUSED_10,
    REFUSED_7,
    REFUSED_10,
    REFUSED_7,
    REFUSED_11, // frame picture, dual prime
    INTRA_RESET,
    REFUSED_11,
    REFUSED_7,
    DUAL_PRIME,
    REFUSED_7,
    REFUSED_11,
    REFUSED_7,
];

/// The answers by the numbers of rows, the outcomes and then the refusals. The last two are of no row. A `static`: a constant is written anew at
/// each use.
static ANSWERS: [Result<PmvUpdateOutcome, UpdateRefusal>; 16] = [
    Ok(PmvUpdateOutcome::IntraConcealmentCopyForwardFirst),
    Ok(PmvUpdateOutcome::IntraResetAll),
    Ok(PmvUpdateOutcome::NonIntraCopyBoth),
    Ok(PmvUpdateOutcome::NonIntraCopyForward),
    Ok(PmvUpdateOutcome::NonIntraCopyBackward),
    Ok(PmvUpdateOutcome::NonIntraZeroMotionReset),
    Ok(PmvUpdateOutcome::NoUpdate),
    Ok(PmvUpdateOutcome::DualPrimeCopyForward),
    Err(UpdateRefusal::IntraWithMotion),
    Err(UpdateRefusal::TypeMissing),
    Err(UpdateRefusal::FrameBasedInField),
    Err(UpdateRefusal::SixteenByEightInFrame),
    Err(UpdateRefusal::DualPrimeFlags),
    Err(UpdateRefusal::NoneRowFlags),
    Err(UpdateRefusal::NoneRowFlags),
    Err(UpdateRefusal::NoneRowFlags),
];

impl From<PmvUpdateOutcome> for u8 {
    ghost from_gives = { λ outcome number. number ≡ outcome_number outcome };

    /// Counted from 0 in the order of the outcomes.
    fn from(outcome: PmvUpdateOutcome) -> u8 {
        outcome as u8
    }
}

/// The place of the table for these keys.
#[tactic(auto, unfolding(crate::specs::inner::Rows::outcomes))]
fn row_at(frame: bool, t: PredictionType, forward: bool, backward: bool, intra: bool) -> u8
    ensures { result ≡ table_row frame t forward backward intra }
{
    let kind = frame as usize * 32 + t as usize * 8;
    let flags = forward as usize * 4 + backward as usize * 2 + intra as usize;
    OUTCOMES[kind + flags]
}

/// Which row of the tables the context asks for.
#[tactic(auto, unfolding(crate::specs::inner::Rows::row_for))]
fn decide(ctx: PmvUpdateContext) -> u8
    ensures { result ≡ decided_row ctx }
{
    let picture = ctx.picture_structure;
    let prediction_type = ctx.prediction_type;
    let forward = ctx.macroblock_motion_forward;
    let backward = ctx.macroblock_motion_backward;
    let intra = ctx.macroblock_intra;
    // The rows of an intra macroblock are those of every type.
    let row = row_at(
        picture.is_frame(),
        prediction_type.unwrap_or(PredictionType::FieldBased),
        forward,
        backward,
        intra,
    );
    let typed = chosen(prediction_type.is_none() & !intra, REFUSED_8, row);
    chosen(
        (ctx.concealment_motion_vectors & intra) & !(forward | backward),
        INTRA_CONCEALMENT,
        typed,
    )
}

/// The answer that a row stands for: looked up, so that no jump depends on it.
#[tactic(auto, unfolding(crate::specs::inner::Rows::answers))]
fn answer_of(row: u8) -> Result<PmvUpdateOutcome, UpdateRefusal>
    ensures { result ≡ answer_of row }
{
    ANSWERS[(row % 16) as usize]
}

/// What a row does to the predictors. All eight are written out, as in `Pmv::with`.
fn carried_out(pmv: Pmv, row: u8) -> Pmv
    ensures { result ≡ carried_out row pmv }
{
    let v = pmv.values;
    let zero = row & RESETS != 0;
    let forward = row & COPIES_FORWARD != 0;
    let backward = row & COPIES_BACKWARD != 0;
    Pmv {
        values: [
            chosen(zero, 0, v[0]),
            chosen(zero, 0, v[1]),
            chosen(zero, 0, v[2]),
            chosen(zero, 0, v[3]),
            chosen(zero, 0, chosen(forward, v[0], v[4])),
            chosen(zero, 0, chosen(forward, v[1], v[5])),
            chosen(zero, 0, chosen(backward, v[2], v[6])),
            chosen(zero, 0, chosen(backward, v[3], v[7])),
        ],
    }
}

/// The predictors after a macroblock, and which row of Tables 7-10 and 7-11 it was. A refusal changes no predictor.
pub fn updated_predictors(pmv: Pmv, ctx: PmvUpdateContext) -> PredictorUpdate
    ensures update { result ≡ updated pmv ctx }
    ensures refusal { result_err result.answer ≡ update_refusal ctx }
    ensures value { result_ok result.answer ≡ value_unless (result_err result.answer) (update_outcome ctx) }
{
    let row = decide(ctx);
    PredictorUpdate {
        answer: answer_of(row),
        pmv: carried_out(pmv, row),
    }
}

/// All predictors become zero where a macroblock of a P or B picture is predicted spatially alone, which is weight class 4.
#[tactic(auto, unfolding(crate::specs::Update::spatial_temporal_reset))]
pub fn spatial_temporal_reset_applied(
    pmv: Pmv,
    picture_coding_type: PictureCodingType,
    spatial_temporal_weight_class: u8,
) -> SpatialTemporalReset
    ensures { result ≡ spatial_temporal_reset pmv picture_coding_type spatial_temporal_weight_class }
{
    if (spatial_temporal_weight_class == 4) & picture_coding_type.is_inter() {
        return SpatialTemporalReset {
            applied: true,
            pmv: pmv.cleared(),
        };
    }
    SpatialTemporalReset {
        applied: false,
        pmv: pmv,
    }
}
