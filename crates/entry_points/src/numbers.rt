//! What the numbers of a C call mean, where those that are read have a meaning, and the layer's call on it.
ghost use Rattle.std.specs.Prelude.{◌≡◌, ◌&&◌, Bool, Option, length, is_some, MatchResult};
ghost use Rattle.combine_predictions.specs.Refusals.{refusal_number};
ghost use Rattle.forming_predictions.specs.Parities.{parity_from};
ghost use Rattle.pmv.specs.Kinds.{flag_from, chroma_from};
ghost use Rattle.inter_reconstruction.specs.Motion.{uses_by};
ghost use Rattle.inter_reconstruction.specs.Refusals.{prediction_number};
ghost use Rattle.inter_reconstruction.specs.Answers.{refusal_from, prediction_from};
ghost use Rattle.entry_points.specs.Entries.{unless_number, reference_known, fields_known, geometry_of, frame_direction_of, field_vector_of, field_direction_of};
ghost use Rattle.entry_points.specs.inner.Reading.{read_where, reference_meant, prediction_meant};

use forming_predictions::{FieldParity, NoMeaning, ReferencePlane};
use inter_reconstruction::frames::{FrameBuffer, FrameGeometry};
use inter_reconstruction::macroblock::predict_macroblock_planes;
use inter_reconstruction::motion::{
    DirectionVectors, FieldVector, FieldVectorPair, Motion, MotionVectorPel,
};
use pmv::kinds::{ChromaFormat, flag_from_number};

/// What a C call gives for a frame's geometry.
#[derive(Clone, Copy)]
pub(crate) struct GeometryNumbers {
    pub(crate) width: usize,
    pub(crate) height: usize,
    pub(crate) format: u32,
}

impl GeometryNumbers {
    #[tactic(auto, unfolding(crate::specs::Entries::geometry_of))]
    fn read(self) -> Result<FrameGeometry, NoMeaning>
        ensures { result ≡ read_where (is_some (chroma_from self.format)) (geometry_of self.width self.height self.format) }
    {
        let chroma_format = ChromaFormat::try_from(self.format)?;
        Ok(FrameGeometry {
            width: self.width,
            height: self.height,
            chroma_format,
        })
    }
}

/// What a C call gives for one reference.
#[derive(Clone, Copy)]
pub(crate) struct ReferenceNumbers<'a> {
    pub(crate) present: u32,
    pub(crate) geometry: GeometryNumbers,
    pub(crate) y: ReferencePlane<'a>,
    pub(crate) cb: ReferencePlane<'a>,
    pub(crate) cr: ReferencePlane<'a>,
}

impl<'a> ReferenceNumbers<'a> {
    /// A reference that is absent is not read.
    #[tactic(auto, unfolding(crate::specs::Entries::reference_known))]
    pub(crate) fn read(self) -> Result<Option<FrameBuffer<'a>>, NoMeaning>
        ensures { result ≡ read_where (reference_known self.entry.present self.entry.geometry.format) (reference_meant self.entry) }
    {
        let given = flag_from_number(self.present)?;
        Ok(if given {
            Some(FrameBuffer {
                geometry: self.geometry.read()?,
                y: self.y,
                cb: self.cb,
                cr: self.cr,
            })
        } else {
            None
        })
    }
}

/// What a C call gives for the vectors of one direction.
pub(crate) trait VectorNumbers: Copy {
    /// What they stand for.
    type Vectors: DirectionVectors;

    /// Whether those that are read have a meaning.
    ghost known: { Self → Bool };

    /// Which.
    ghost meant: { Self → Option Self.Vectors };

    fn read(self) -> Result<Option<Self::Vectors>, NoMeaning>
        ensures { result ≡ read_where (known self) (meant self) };
}

/// For a frame-based macroblock.
#[derive(Clone, Copy)]
pub(crate) struct FrameVectorNumbers {
    pub(crate) present: u32,
    pub(crate) horizontal: i32,
    pub(crate) vertical: i32,
}

/// A vector that is absent is not read.
impl VectorNumbers for FrameVectorNumbers {
    type Vectors = MotionVectorPel;

    ghost known = { λ n. is_some (flag_from n.present) };

    ghost meant = { λ n. frame_direction_of n.present n.horizontal n.vertical };

    #[tactic(auto, unfolding(crate::specs::Entries::frame_direction_of))]
    fn read(self) -> Result<Option<MotionVectorPel>, NoMeaning> {
        let there = flag_from_number(self.present)?;
        Ok(if there {
            Some(MotionVectorPel {
                horizontal: self.horizontal,
                vertical: self.vertical,
            })
        } else {
            None
        })
    }
}

/// For one field of a field-based macroblock.
#[derive(Clone, Copy)]
pub(crate) struct FieldVectorNumbers {
    pub(crate) field: u32,
    pub(crate) horizontal: i32,
    pub(crate) vertical: i32,
}

impl FieldVectorNumbers {
    #[tactic(auto, unfolding(crate::specs::Entries::field_vector_of))]
    fn read(self) -> Result<FieldVector, NoMeaning>
        ensures { result ≡ read_where (is_some (parity_from self.field)) (field_vector_of self.field self.horizontal self.vertical) }
    {
        let reference_field = FieldParity::try_from(self.field)?;
        Ok(FieldVector {
            vector: MotionVectorPel {
                horizontal: self.horizontal,
                vertical: self.vertical,
            },
            reference_field,
        })
    }
}

/// For a field-based macroblock.
#[derive(Clone, Copy)]
pub(crate) struct FieldPairNumbers {
    pub(crate) present: u32,
    pub(crate) top: FieldVectorNumbers,
    pub(crate) bottom: FieldVectorNumbers,
}

/// Field vectors that are absent are not read.
impl VectorNumbers for FieldPairNumbers {
    type Vectors = FieldVectorPair;

    ghost known = { λ n. fields_known n.present n.top.field n.bottom.field };

    ghost meant = { λ n. field_direction_of n.present n.top.field n.top.horizontal n.top.vertical n.bottom.field n.bottom.horizontal n.bottom.vertical };

    #[tactic(auto, unfolding(crate::specs::Entries::fields_known, crate::specs::Entries::field_direction_of))]
    fn read(self) -> Result<Option<FieldVectorPair>, NoMeaning> {
        let there = flag_from_number(self.present)?;
        Ok(if there {
            Some(FieldVectorPair {
                top: self.top.read()?,
                bottom: self.bottom.read()?,
            })
        } else {
            None
        })
    }
}

/// What a prediction is read with, beside the cell.
#[derive(Clone, Copy)]
pub(crate) struct PredictionRead<'a, V> {
    pub(crate) dest: FrameGeometry,
    pub(crate) forward: Option<FrameBuffer<'a>>,
    pub(crate) backward: Option<FrameBuffer<'a>>,
    pub(crate) motion: Motion<V>,
}

/// What the numbers of a call mean, where all that are read have a meaning. They are tested one by one, as they are read: with all read first, a
/// macroblock took 31 to 70 instructions more.
pub(crate) fn read_prediction<'a, N: VectorNumbers>(
    dest: GeometryNumbers,
    forward: ReferenceNumbers<'a>,
    backward: ReferenceNumbers<'a>,
    forward_vectors: N,
    backward_vectors: N,
) -> Result<PredictionRead<'a, N::Vectors>, NoMeaning>
    ensures { let known = is_some (chroma_from dest.format) && (reference_known forward.entry.present forward.entry.geometry.format && (reference_known backward.entry.present backward.entry.geometry.format && (N.known forward_vectors && N.known backward_vectors))) in
        let geometry = geometry_of dest.width dest.height dest.format in
        result ≡ read_where known (prediction_meant geometry (reference_meant forward.entry) (reference_meant backward.entry) (N.meant forward_vectors) (N.meant backward_vectors)) }
{
    Ok(PredictionRead {
        dest: dest.read()?,
        forward: forward.read()?,
        backward: backward.read()?,
        motion: Motion {
            forward: forward_vectors.read()?,
            backward: backward_vectors.read()?,
        },
    })
}

/// 0, or the number of the refusal.
#[inline(always)] // as a call of its own, a macroblock took 4 to 26 instructions more
pub(crate) fn code_of<T: Drop, R: Into<u32>>(answer: Result<T, R>) -> u32
    ensures { MatchResult answer (λ _. result ≡ 0) (λ refusal. R.Into.converts refusal result) }
{
    match answer {
        Ok(_) => 0,
        Err(refusal) => refusal.into(),
    }
}

/// The layer's call on what was read: 0, or the number of the refusal.
pub(crate) fn predict_read<V: DirectionVectors>(
    read: PredictionRead<'_, V>,
    mb_col: usize,
    mb_row: usize,
    out: &mut [u8],
) -> u32
    ensures number { let forward = read.entry.forward in
        let backward = read.entry.backward in
        let used = uses_by V.motion V.still read.entry.motion (is_some forward) (is_some backward) in
        result ≡ refusal_number prediction_number (refusal_from read.entry.dest (length out.old) forward backward used mb_col mb_row) }
    ensures buffer { let forward = read.entry.forward in
        let backward = read.entry.backward in
        let used = uses_by V.motion V.still read.entry.motion (is_some forward) (is_some backward) in
        out.new ≡ unless_number result (prediction_from read.entry.dest.chroma_format forward backward used mb_col mb_row) out.old }
{
    code_of(predict_macroblock_planes(
        read.dest,
        read.forward,
        read.backward,
        mb_col,
        mb_row,
        read.motion,
        out,
    ))
}
