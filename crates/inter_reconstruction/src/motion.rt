//! ISO/IEC 13818-2, 7.6.3.5, 7.6.4 and 7.6.5: the vectors of a macroblock, by direction.
ghost use Rattle.std.specs.Prelude.{◌≡◌};
ghost use Rattle.inter_reconstruction.specs.Motion.{zero_vector, zero_pair, uses_by, chroma_vector, chroma_field, chroma_motion};
ghost use Rattle.inter_reconstruction.specs.declared.motion.DirectionMotion.TheVariants.{Frame, Field};
ghost use Rattle.inter_reconstruction.specs.declared.motion.DirectionMotion.{DirectionMotion};

use forming_predictions::FieldParity;
use pmv::chroma::scale_chroma;
use pmv::kinds::ChromaFormat;

/// A vector in half samples.
#[derive(Clone, Copy, Debug, PartialEq, Eq)]
pub struct MotionVectorPel {
    pub horizontal: i32,
    pub vertical: i32,
}

/// A field's vector, which counts that field's lines, and the reference field that it reads: motion_vertical_field_select.
#[derive(Clone, Copy, Debug, PartialEq, Eq)]
pub struct FieldVector {
    pub vector: MotionVectorPel,
    pub reference_field: FieldParity,
}

/// A direction's two field vectors: for the macroblock's top field and for its bottom field.
#[derive(Clone, Copy, Debug, PartialEq, Eq)]
pub struct FieldVectorPair {
    pub top: FieldVector,
    pub bottom: FieldVector,
}

/// The vectors of a macroblock, in each direction that has motion.
#[derive(Clone, Copy, Debug, PartialEq, Eq)]
pub struct Motion<V> {
    pub forward: Option<V>,
    pub backward: Option<V>,
}

/// Those of a frame-based macroblock.
pub type FrameMotion = Motion<MotionVectorPel>;

/// Those of a field-based macroblock.
pub type FieldBasedMotion = Motion<FieldVectorPair>;

/// What one direction is predicted by.
#[derive(Clone, Copy, Debug, PartialEq, Eq)]
pub enum DirectionMotion {
    Frame(MotionVectorPel),
    Field(FieldVectorPair),
}

/// The directions that a macroblock is predicted from, each with its motion: kinds of directions, no steps.
#[derive(Clone, Copy, Debug, PartialEq, Eq)]
pub enum Uses {
    Forward(DirectionMotion),
    Backward(DirectionMotion),
    Both(DirectionMotion, DirectionMotion),
}

/// The same without their motion: what an accepted call tells.
#[derive(Clone, Copy, Debug, PartialEq, Eq)]
pub enum UsedDirections {
    Forward,
    Backward,
    Both,
}

/// The vectors of one direction: one for a frame's rows, or one for the rows of each field.
pub trait DirectionVectors: Copy {
    /// The motion that they stand for.
    ghost motion: { Self → DirectionMotion };

    /// Those of a macroblock without motion.
    ghost still: { Self };

    fn motion(self) -> DirectionMotion
        ensures { result ≡ motion self };

    fn still() -> Self
        ensures { result ≡ still };
}

impl DirectionVectors for MotionVectorPel {
    ghost motion = { Frame };

    ghost still = { zero_vector };

    fn motion(self) -> DirectionMotion {
        DirectionMotion::Frame(self)
    }

    fn still() -> Self {
        MotionVectorPel {
            horizontal: 0,
            vertical: 0,
        }
    }
}

/// Without motion each field reads its own parity.
impl DirectionVectors for FieldVectorPair {
    ghost motion = { Field };

    ghost still = { zero_pair };

    fn motion(self) -> DirectionMotion {
        DirectionMotion::Field(self)
    }

    fn still() -> Self {
        FieldVectorPair {
            top: FieldVector {
                vector: MotionVectorPel::still(),
                reference_field: FieldParity::Top,
            },
            bottom: FieldVector {
                vector: MotionVectorPel::still(),
                reference_field: FieldParity::Bottom,
            },
        }
    }
}

impl<V: DirectionVectors> Motion<V> {
    /// The directions that are used, with their motion. Where neither has motion, the forward one is, with zero vectors. Where both have,
    /// and one reference alone is there, that one is.
    pub fn uses(self, forward_present: bool, backward_present: bool) -> Uses
        ensures { result ≡ uses_by V.motion V.still self forward_present backward_present }
    {
        match (self.forward, self.backward) {
            (None, None) => Uses::Forward(V::still().motion()),
            (Some(d), None) => Uses::Forward(d.motion()),
            (None, Some(e)) => Uses::Backward(e.motion()),
            (Some(d), Some(e)) => match (forward_present, backward_present) {
                (true, false) => Uses::Forward(d.motion()),
                (false, true) => Uses::Backward(e.motion()),
                _ => Uses::Both(d.motion(), e.motion()),
            },
        }
    }
}

#[tactic(auto, unfolding(pmv::specs::Chroma::scaled))]
fn chroma_vector(chroma_format: ChromaFormat, v: MotionVectorPel) -> MotionVectorPel
    ensures { result ≡ chroma_vector chroma_format v }
{
    let scaled = scale_chroma(v.horizontal, v.vertical, chroma_format);
    MotionVectorPel {
        horizontal: scaled.chroma_horiz,
        vertical: scaled.chroma_vert,
    }
}

fn chroma_field(chroma_format: ChromaFormat, u: FieldVector) -> FieldVector
    ensures { result ≡ chroma_field chroma_format u }
{
    let v = u.vector;
    let reference_field = u.reference_field;
    FieldVector {
        vector: chroma_vector(chroma_format, v),
        reference_field: reference_field,
    }
}

impl DirectionMotion {
    /// The motion of the chrominance: its vectors are scaled, its fields are the same.
    pub fn chroma(self, chroma_format: ChromaFormat) -> Self
        ensures { result ≡ chroma_motion chroma_format self }
    {
        match self {
            DirectionMotion::Frame(v) => DirectionMotion::Frame(chroma_vector(chroma_format, v)),
            DirectionMotion::Field(p) => {
                let top = p.top;
                let bottom = p.bottom;
                DirectionMotion::Field(FieldVectorPair {
                    top: chroma_field(chroma_format, top),
                    bottom: chroma_field(chroma_format, bottom),
                })
            }
        }
    }
}
