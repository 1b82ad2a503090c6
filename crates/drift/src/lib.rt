//! The drift figure: how far rounding may take the samples of a picture from those of the same steps with every mean exact.
#![tactic(auto)]

ghost use Rattle.std.specs.Prelude.{◌≡◌, ◌*◌};
ghost use Rattle.drift.specs.Drift.{DriftWithin, DriftFigure};

/// A bound in quarters of a grey step.
#[derive(Clone, Copy, Debug, PartialEq, Eq)]
pub struct DriftBound {
    pub above: u64,
    pub below: u64,
}

/// How far a sample of picture n may lie above and below the unrounded one: n grey steps, and n / 4. That it is so for every picture, also for
/// those whose number no u32 holds, is the promise `every`.
#[tactic(auto, using(crate::proofs::Runs::drift))]
pub fn drift_bound(n: u32) -> DriftBound
    ensures figure { (result.above ≡ 4 * n) × (result.below ≡ n) }
    ensures drift { DriftWithin n result.above result.below }
    ensures every { DriftFigure }
{
    let steps = n as u64;
    DriftBound {
        above: 4 * steps,
        below: steps,
    }
}
