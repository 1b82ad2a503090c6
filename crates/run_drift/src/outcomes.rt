//! What comes of steps.
use crate::steps::{Direction, Step};
use inter_reconstruction::macroblock::PredictionRefusal;
use inter_reconstruction::placing::PlacingRefusal;
use std::fmt;

/// What a step is refused for, prediction and placing taken together.
#[derive(Clone, Copy, PartialEq, Eq)]
pub(crate) enum Refusal {
    /// 13.
    CellTooFar,
    /// 16.
    ForwardMissing,
    /// 17.
    BackwardMissing,
    /// 20.
    OutsidePicture,
    /// No other number can occur in pictures whose planes fit.
    Other,
}

impl From<PredictionRefusal> for Refusal {
    fn from(refusal: PredictionRefusal) -> Refusal {
        match refusal {
            PredictionRefusal::CellTooFar => Refusal::CellTooFar,
            PredictionRefusal::ForwardMissing => Refusal::ForwardMissing,
            PredictionRefusal::BackwardMissing => Refusal::BackwardMissing,
            PredictionRefusal::OutsideDomain
            | PredictionRefusal::OtherGeometry
            | PredictionRefusal::WrongLength => Refusal::Other,
        }
    }
}

impl From<PlacingRefusal> for Refusal {
    fn from(refusal: PlacingRefusal) -> Refusal {
        match refusal {
            PlacingRefusal::IllFormed => Refusal::OutsidePicture,
            PlacingRefusal::OutsideDomain | PlacingRefusal::WrongLength => Refusal::Other,
        }
    }
}

impl Direction {
    /// Whether a direction is left out: both have motion, and of the references the other's alone is there.
    fn left_out(self, other: Direction) -> bool {
        self.motion.is_some()
            && other.motion.is_some()
            && self.reference.is_none()
            && other.reference.is_some()
    }
}

impl Step {
    /// Without motion in either direction the forward reference is used.
    pub(crate) fn uses_forward(self) -> bool {
        (self.forward.motion.is_some() || self.backward.motion.is_none())
            && !self.forward.left_out(self.backward)
    }

    pub(crate) fn uses_backward(self) -> bool {
        self.backward.motion.is_some() && !self.backward.left_out(self.forward)
    }

    /// What the table of docs/SCOPE.md says of a step: prediction, then placing.
    pub(crate) fn by_table(self) -> Result<(), Refusal> {
        if self.column > 1023 || self.row > 1023 {
            return Err(Refusal::CellTooFar);
        }
        if self.uses_forward() && self.forward.reference.is_none() {
            return Err(Refusal::ForwardMissing);
        }
        if self.uses_backward() && self.backward.reference.is_none() {
            return Err(Refusal::BackwardMissing);
        }
        if self.column >= 3 || self.row >= 3 {
            return Err(Refusal::OutsidePicture);
        }
        Ok(())
    }
}

/// Steps by what came of them.
#[derive(Clone, Copy)]
pub(crate) struct Counts {
    pub(crate) accepted: u64,
    pub(crate) far: u64,
    pub(crate) no_forward: u64,
    pub(crate) no_backward: u64,
    pub(crate) outside: u64,
    pub(crate) others: u64,
    pub(crate) disagree: u64,
}

impl Counts {
    pub(crate) fn new() -> Counts {
        Counts {
            accepted: 0,
            far: 0,
            no_forward: 0,
            no_backward: 0,
            outside: 0,
            others: 0,
            disagree: 0,
        }
    }

    /// Counts a step by what the calls answered. Where the table says otherwise, they disagree.
    pub(crate) fn count(&mut self, answered: Result<(), Refusal>, table: Result<(), Refusal>) {
        let counted = match answered {
            Ok(()) => &mut self.accepted,
            Err(Refusal::CellTooFar) => &mut self.far,
            Err(Refusal::ForwardMissing) => &mut self.no_forward,
            Err(Refusal::BackwardMissing) => &mut self.no_backward,
            Err(Refusal::OutsidePicture) => &mut self.outside,
            Err(Refusal::Other) => &mut self.others,
        };
        *counted = counted.saturating_add(1);
        if answered != table {
            self.disagree = self.disagree.saturating_add(1);
        }
    }
}

impl fmt::Display for Counts {
    fn fmt<W: fmt::Write>(&self, f: &mut fmt::Formatter<W>) -> fmt::Result {
        write!(
            f,
            "{} accepted; refused {} with 13, {} with 16, {} with 17, {} with 20, {} otherwise; {} unlike the table",
            self.accepted,
            self.far,
            self.no_forward,
            self.no_backward,
            self.outside,
            self.others,
            self.disagree,
        )
    }
}
