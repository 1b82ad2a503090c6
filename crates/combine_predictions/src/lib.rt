//! ISO/IEC 13818-2, 7.6.7: combining predictions. A macroblock that is predicted from two directions gets the mean of the two
//! predictions, sample by sample; one that is predicted from one direction gets that prediction as it is.
#![tactic(auto)]

ghost use Rattle.std.specs.Prelude.{◌≡◌, length};
ghost use Rattle.std.specs.Result.{result_err};
ghost use Rattle.combine_predictions.specs.Refusals.{averaging_number, unless_refused};
ghost use Rattle.combine_predictions.specs.Averaging.{mean2, averaged, average_answer};
ghost use Rattle.combine_predictions.specs.Choosing.{chosen};

/// Why averaging refuses. Each reason has its number of docs/SCOPE.md.
#[derive(Clone, Copy, Debug, PartialEq, Eq)]
pub enum AveragingRefusal {
    /// The output is of another length than the inputs.
    WrongLength = 18,
    /// The lengths of the inputs differ.
    LengthsDiffer = 19,
}

impl From<AveragingRefusal> for u32 {
    ghost from_gives = { λ refusal number. number ≡ averaging_number refusal };

    fn from(refusal: AveragingRefusal) -> u32 {
        refusal as u32
    }
}

/// Which of the two predictions a macroblock with one direction has. A bidirectional one goes through `average_predictions`.
#[derive(Clone, Copy)]
pub enum PredictionDirection {
    Forward,
    Backward,
    /// Neither direction is flagged: the forward slice holds the prediction by zero vectors.
    Skipped,
}

/// The mean of two samples, a half rounded up.
fn avg2(a: u8, b: u8) -> u8
    ensures { result ≡ mean2 a b }
{
    ((a as u16 + b as u16 + 1) / 2) as u8
}

/// Writes the mean of `forward` and `backward`, sample by sample, to `out`. It refuses inputs of differing lengths, then an output
/// of another length than theirs, and leaves the output as it was.
pub fn average_predictions(
    forward: &[u8],
    backward: &[u8],
    out: &mut [u8],
) -> Result<(), AveragingRefusal>
    ensures answer { result ≡ average_answer (length forward.now) (length backward.now) (length out.old) }
    ensures buffer { out.new ≡ unless_refused (result_err result) (averaged forward.now backward.now) out.old }
{
    if forward.len() != backward.len() {
        return Err(AveragingRefusal::LengthsDiffer);
    }
    if out.len() != forward.len() {
        return Err(AveragingRefusal::WrongLength);
    }
    average_into(forward, backward, out);
    Ok(())
}

/// The loop of `average_predictions`, for slices of one length.
fn average_into(forward: &[u8], backward: &[u8], out: &mut [u8])
    requires { (length backward.now ≡ length forward.now) × (length out.old ≡ length forward.now) }
    ensures { out.new ≡ averaged forward.now backward.now }
{
    for i in 0..out.len() {
        out[i] = avg2(forward[i], backward[i]);
    }
}

/// The prediction of the one direction that there is: the lent slice itself, whatever the other's length.
pub fn combine_directional_predictions<'a>(
    direction: PredictionDirection,
    forward: &'a [u8],
    backward: &'a [u8],
) -> &'a [u8]
    ensures { result ≡ chosen direction forward.entry backward.entry }
{
    match direction {
        PredictionDirection::Forward => forward,
        PredictionDirection::Backward => backward,
        PredictionDirection::Skipped => forward,
    }
}
