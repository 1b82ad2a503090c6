//! Steps, and the three lists of them.
ghost use Rattle.std.specs.Prelude.{◌<◌};

use crate::pictures::Picture;
use drawn::Draws;
use forming_predictions::FieldParity;
use inter_reconstruction::motion::{FieldVector, FieldVectorPair, MotionVectorPel};

/// A direction of a step: the number of its reference, where that is there, and its vectors, where it has motion: one for each of the
/// macroblock's fields. A frame-based step goes by the first vector, and reads the frame.
#[derive(Clone, Copy)]
pub(crate) struct Direction {
    pub(crate) reference: Option<usize>,
    pub(crate) motion: Option<FieldVectorPair>,
}

/// The macroblock at this column and row of picture `target` is predicted and placed. Whether it is field-based is said once: a
/// `DirectionMotion` in each direction could say it of one alone, and a pair is drawn for either kind.
#[derive(Clone, Copy)]
pub(crate) struct Step {
    pub(crate) target: usize,
    pub(crate) field_based: bool,
    pub(crate) column: u16,
    pub(crate) row: u16,
    pub(crate) forward: Direction,
    pub(crate) backward: Direction,
}

impl Direction {
    /// The reference, where it is there. No list has a step with a reference from its target on, so that it is among the pictures below.
    pub(crate) fn picture<S>(self, below: &[Picture<S>]) -> Option<&Picture<S>> {
        below.get(self.reference?)
    }
}

const ABSENT: Direction = Direction {
    reference: None,
    motion: None,
};

fn vector(horizontal: i32, vertical: i32, reference_field: FieldParity) -> FieldVector {
    FieldVector {
        vector: MotionVectorPel {
            horizontal,
            vertical,
        },
        reference_field,
    }
}

/// A frame vector into a picture.
fn from_picture(picture: usize, horizontal: i32, vertical: i32) -> Direction {
    Direction {
        reference: Some(picture),
        motion: Some(FieldVectorPair {
            top: vector(horizontal, vertical, FieldParity::Top),
            bottom: vector(horizontal, vertical, FieldParity::Bottom),
        }),
    }
}

/// Step k where every macroblock of picture 1 has a step, then every one of picture 2, and so on.
fn at_cell(k: usize, forward: Direction, backward: Direction) -> Step {
    Step {
        target: k / 9 + 1,
        field_based: false,
        column: (k % 3) as u16,
        row: (k / 3 % 3) as u16,
        forward,
        backward,
    }
}

/// Step k of the brighter list: from the picture before.
pub(crate) fn brighter(k: usize) -> Step {
    at_cell(k, from_picture(k / 9, 0, 1), from_picture(k / 9, 0, -1))
}

/// Step k of the unchanged list: from the picture before.
pub(crate) fn unchanged(k: usize) -> Step {
    at_cell(k, from_picture(k / 9, 1, 1), ABSENT)
}

// ---- drawn steps

/// A component of a vector: one of -40 to 40, or, one time in eight, any.
fn drawn_component(numbers: &mut Draws) -> i32 {
    let v = numbers.number();
    if v % 8 == 0 {
        return ((v / 8 % 4294967296) as i64 - 2147483648) as i32;
    }
    (v / 8 % 81) as i32 - 40
}

fn drawn_parity(numbers: &mut Draws) -> FieldParity {
    if numbers.number() % 2 == 0 {
        FieldParity::Top
    } else {
        FieldParity::Bottom
    }
}

fn drawn_vector(numbers: &mut Draws) -> FieldVector {
    FieldVector {
        vector: MotionVectorPel {
            horizontal: drawn_component(numbers),
            vertical: drawn_component(numbers),
        },
        reference_field: drawn_parity(numbers),
    }
}

/// A column or a row: inside, or, one time in sixteen, one that may lie outside or even be over 1,023.
fn drawn_cell(numbers: &mut Draws) -> u16 {
    let v = numbers.number();
    if v % 16 == 0 {
        return (v / 16 % 1200) as u16;
    }
    (v / 16 % 3) as u16
}

/// Any lower picture, but half the time the one before, so that long chains occur.
fn drawn_below(target: usize, numbers: &mut Draws) -> usize
    requires { 0 < target }
{
    let v = numbers.number();
    if v % 2 == 0 {
        return target - 1;
    }
    (v / 2 % target as u64) as usize
}

/// A reference is absent one time in eight, and motion one time in four. What is absent is drawn too.
fn drawn_direction(target: usize, numbers: &mut Draws) -> Direction
    requires { 0 < target }
{
    let there = numbers.number() % 8 != 0;
    let picture = drawn_below(target, numbers);
    let moves = numbers.number() % 4 != 0;
    let vectors = FieldVectorPair {
        top: drawn_vector(numbers),
        bottom: drawn_vector(numbers),
    };
    Direction {
        reference: there.then_some(picture),
        motion: moves.then_some(vectors),
    }
}

/// The next step of the drawn list.
pub(crate) fn drawn(numbers: &mut Draws) -> Step {
    let target = (numbers.number() % 18 + 1) as usize;
    Step {
        target,
        field_based: numbers.number() % 2 != 0,
        column: drawn_cell(numbers),
        row: drawn_cell(numbers),
        forward: drawn_direction(target, numbers),
        backward: drawn_direction(target, numbers),
    }
}
