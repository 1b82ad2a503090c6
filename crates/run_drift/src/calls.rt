//! A step by the calls that predict and place.
use crate::outcomes::Refusal;
use crate::pictures;
use crate::pictures::Picture;
use crate::steps::Step;
use forming_predictions::{PlaneSides, ReferencePlane};
use inter_reconstruction::frames::{FrameBuffer, FrameGeometry, FrameSides};
use inter_reconstruction::macroblock::{Accepted, PredictionRefusal, predict_macroblock_planes};
use inter_reconstruction::motion::{DirectionVectors, Motion};
use inter_reconstruction::placing::place_macroblock;
use pmv::kinds::ChromaFormat;

const GEOMETRY: FrameGeometry = FrameGeometry {
    width: 48,
    height: 48,
    chroma_format: ChromaFormat::Yuv420,
};

const CHROMINANCE: PlaneSides = PlaneSides {
    width: 24,
    height: 24,
};

/// What every picture declares.
const FRAME: FrameSides = FrameSides {
    geometry: GEOMETRY,
    y: PlaneSides {
        width: 48,
        height: 48,
    },
    cb: CHROMINANCE,
    cr: CHROMINANCE,
};

/// A picture as it is read.
fn reference(picture: &Picture<u8>) -> FrameBuffer<'_> {
    FrameBuffer {
        geometry: GEOMETRY,
        y: ReferencePlane {
            sides: FRAME.y,
            samples: &picture.y,
        },
        cb: ReferencePlane {
            sides: FRAME.cb,
            samples: &picture.cb,
        },
        cr: ReferencePlane {
            sides: FRAME.cr,
            samples: &picture.cr,
        },
    }
}

fn predict<V: DirectionVectors>(
    below: &[Picture<u8>],
    step: Step,
    motion: Motion<V>,
    out: &mut [u8],
) -> Result<Accepted, PredictionRefusal> {
    predict_macroblock_planes(
        GEOMETRY,
        step.forward.picture(below).map(reference),
        step.backward.picture(below).map(reference),
        usize::from(step.column),
        usize::from(step.row),
        motion,
        out,
    )
}

/// What prediction refuses is not placed.
pub(crate) fn take(pictures: &mut [Picture<u8>], step: Step) -> Result<(), Refusal> {
    let (below, target) = pictures::at(pictures, step.target).ok_or(Refusal::Other)?;
    let mut out = [0u8; 384];
    if step.field_based {
        let motion = Motion {
            forward: step.forward.motion,
            backward: step.backward.motion,
        };
        predict(below, step, motion, &mut out)?;
    } else {
        let motion = Motion {
            forward: step.forward.motion.map(|vectors| vectors.top.vector),
            backward: step.backward.motion.map(|vectors| vectors.top.vector),
        };
        predict(below, step, motion, &mut out)?;
    }
    place_macroblock(
        FRAME,
        usize::from(step.column),
        usize::from(step.row),
        &out,
        &mut target.y,
        &mut target.cb,
        &mut target.cr,
    )?;
    Ok(())
}
