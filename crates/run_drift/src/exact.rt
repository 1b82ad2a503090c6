//! The same steps with every mean exact. The unrounded samples are fed the steps alone, never an answer of the calls, and nothing here
//! calls the code that forms blocks.
ghost use Rattle.std.specs.Prelude.{◌≤◌};

use crate::pictures;
use crate::pictures::{Component, Picture, scaled};
use crate::steps::{Direction, Step};
use forming_predictions::{FieldParity, split_component};
use inter_reconstruction::motion::{DirectionVectors, FieldVectorPair, MotionVectorPel};
use pmv::chroma::scale_chroma;
use pmv::kinds::ChromaFormat;

/// What a row of a macroblock is read by: a vector, and the field whose lines it counts; none where it counts the frame's.
#[derive(Clone, Copy)]
struct Reading {
    vector: MotionVectorPel,
    field: Option<FieldParity>,
}

/// A direction that is used: its reference, and its vectors.
#[derive(Clone, Copy)]
struct Used<'a> {
    reference: &'a Picture<u64>,
    motion: Option<FieldVectorPair>,
}

// ---- where a vector reads

fn limited(at: i64, end: u8) -> u8
    ensures { result ≤ end }
{
    at.clamp(0, i64::from(end)) as u8
}

/// Where a component of a vector leads from here, and the neighbour that a half calls for; without one, the same place. Both are clamped
/// to 0 to `end`.
fn moved(at: u8, by: i32, end: u8) -> (u8, u8)
    ensures { (result.0 ≤ end) × (result.1 ≤ end) }
{
    let split = split_component(by);
    let to = i64::from(at) + i64::from(split.int_vec);
    (
        limited(to, end),
        limited(to + i64::from(split.half_flag), end),
    )
}

/// The rows of the plane that row y reads: of the frame, or of a field, whose lines are clamped before its row is taken.
fn rows(y: u8, by: i32, field: Option<FieldParity>, end: u8) -> (u8, u8) {
    let Some(parity) = field else {
        return moved(y, by, end);
    };
    let first = usize::from(parity) as u8;
    let (upper, lower) = moved(y / 2, by, end / 2);
    (upper * 2 + first, lower * 2 + first)
}

/// The vector of a component of the picture.
fn vector_of(component: Component, v: MotionVectorPel) -> MotionVectorPel {
    match component {
        Component::Y => v,
        Component::Cb | Component::Cr => {
            let scaled = scale_chroma(v.horizontal, v.vertical, ChromaFormat::Yuv420);
            MotionVectorPel {
                horizontal: scaled.chroma_horiz,
                vertical: scaled.chroma_vert,
            }
        }
    }
}

// ---- samples

fn sample(component: Component, plane: &[u64], x: u8, y: u8) -> u64 {
    let place = usize::from(y) * usize::from(component.side()) + usize::from(x);
    plane.get(place).copied().unwrap_or(0)
}

impl Reading {
    /// The sum of four samples of a plane. Where there is no half the neighbour is the sample itself, so that one sample is added four
    /// times, or two neighbours twice each, or four once.
    fn read(self, component: Component, plane: &[u64], x: u8, y: u8) -> u64 {
        let v = vector_of(component, self.vector);
        let end = component.side() - 1;
        let (left, right) = moved(x, v.horizontal, end);
        let (upper, lower) = rows(y, v.vertical, self.field, end);
        sample(component, plane, left, upper)
            .wrapping_add(sample(component, plane, right, upper))
            .wrapping_add(sample(component, plane, left, lower))
            .wrapping_add(sample(component, plane, right, lower))
    }
}

impl<'a> Used<'a> {
    fn of(uses: bool, direction: Direction, below: &'a [Picture<u64>]) -> Option<Self> {
        if !uses {
            return None;
        }
        Some(Used {
            reference: direction.picture(below)?,
            motion: direction.motion,
        })
    }

    /// Without motion the vector is zero, and each field reads its own parity.
    fn reading(self, field_based: bool, y: u8) -> Reading {
        let vectors = self.motion.unwrap_or(FieldVectorPair::still());
        if !field_based {
            return Reading {
                vector: vectors.top.vector,
                field: None,
            };
        }
        let of_field = if y % 2 == 0 {
            vectors.top
        } else {
            vectors.bottom
        };
        Reading {
            vector: of_field.vector,
            field: Some(of_field.reference_field),
        }
    }

    /// What a direction adds to a sample of picture n: with j the reference's number, it is taken times 8 to the power n - 1 - j.
    fn added(self, n: u32, component: Component, field_based: bool, x: u8, y: u8) -> u64 {
        let reading = self.reading(field_based, y);
        let sum = reading.read(component, self.reference.plane(component), x, y);
        scaled(sum, n.wrapping_sub(self.reference.number.wrapping_add(1)))
    }
}

/// A macroblock of picture n as it is predicted.
#[derive(Clone, Copy)]
struct Prediction<'a> {
    n: u32,
    field_based: bool,
    forward: Option<Used<'a>>,
    backward: Option<Used<'a>>,
}

impl Prediction<'_> {
    /// The sum over the directions used, doubled for a single one.
    fn sample(self, component: Component, x: u8, y: u8) -> u64 {
        match (self.forward, self.backward) {
            (Some(d), Some(e)) => d
                .added(self.n, component, self.field_based, x, y)
                .wrapping_add(e.added(self.n, component, self.field_based, x, y)),
            (Some(d), None) | (None, Some(d)) => {
                d.added(self.n, component, self.field_based, x, y)
                    .wrapping_mul(2)
            }
            (None, None) => 0,
        }
    }
}

/// What the table refuses changes nothing.
pub(crate) fn take(pictures: &mut [Picture<u64>], step: Step) {
    if step.by_table().is_err() {
        return;
    }
    let Some((below, target)) = pictures::at(pictures, step.target) else {
        return;
    };
    let prediction = Prediction {
        n: target.number,
        field_based: step.field_based,
        forward: Used::of(step.uses_forward(), step.forward, below),
        backward: Used::of(step.uses_backward(), step.backward, below),
    };
    for component in Component::ALL {
        let side = component.side();
        let block = component.block();
        let rows = target
            .plane_mut(component)
            .chunks_exact_mut(usize::from(side));
        for (y, row) in (0..side).zip(rows) {
            for (x, sample) in (0..side).zip(row.iter_mut()) {
                if (u16::from(x / block), u16::from(y / block)) == (step.column, step.row) {
                    *sample = prediction.sample(component, x, y);
                }
            }
        }
    }
}
