//! Shows the three lower layers: vectors from the differences of a stream, and their predictors; blocks predicted from a small plane, of its
//! frame and of a field; the mean of two predictions and a choice of one; and refusals.
#![tactic(auto)]

use combine_predictions::{
    PredictionDirection, average_predictions, combine_directional_predictions,
};
use forming_predictions::{
    BlockSize, FieldParity, FieldReference, PlaneSides, Reference, ReferencePlane, predict_block,
};
use pmv::chroma::scale_chroma;
use pmv::kinds::{
    ChromaFormat, Direction, MvFormat, PictureStructure, PredictionType, VectorIndex,
};
use pmv::predictors::Pmv;
use pmv::update::{PmvUpdateContext, updated_predictors};
use pmv::vector::{DecodedVector, MotionVector, reconstructed_motion_vector};
use std::io;

/// The number of a refusal.
fn refused(rt: &impl Print, number: u32) -> io::Result<()> {
    print!(rt; " refused, {number}")
}

fn predictors(rt: &impl Print, pmv: Pmv) -> io::Result<()> {
    print!(rt; ", predictors")?;
    for predictor in &pmv.values {
        print!(rt; " {predictor}")?;
    }
    println!(rt)
}

fn vector(rt: &impl Print, d: DecodedVector) -> io::Result<()> {
    match d.answer {
        Ok(c) => {
            let h = c.horizontal.vector_prime;
            let v = c.vertical.vector_prime;
            print!(rt; " ({h}, {v})")?;
        }
        Err(refusal) => refused(rt, refusal.into())?,
    }
    predictors(rt, d.pmv)
}

/// The first forward vector of a macroblock in a frame picture.
fn decode(pmv: Pmv, format: MvFormat, mv: MotionVector, f_code: u8) -> DecodedVector {
    reconstructed_motion_vector(
        pmv,
        mv,
        VectorIndex::First,
        Direction::Forward,
        f_code,
        f_code,
        format,
        PictureStructure::Frame,
    )
}

/// A difference without residuals.
fn plain(horizontal: i32, vertical: i32) -> MotionVector {
    MotionVector {
        motion_code_horiz: horizontal,
        motion_residual_horiz: None,
        motion_code_vert: vertical,
        motion_residual_vert: None,
    }
}

/// A macroblock of a frame picture that is not intra, with forward motion alone.
fn update(rt: &impl Print, pmv: Pmv, t: PredictionType) -> io::Result<()> {
    let u = updated_predictors(
        pmv,
        PmvUpdateContext {
            picture_structure: PictureStructure::Frame,
            prediction_type: Some(t),
            macroblock_motion_forward: true,
            macroblock_motion_backward: false,
            macroblock_intra: false,
            concealment_motion_vectors: false,
        },
    );
    match u.answer {
        Ok(_) => print!(rt; " updated")?,
        Err(refusal) => refused(rt, refusal.into())?,
    }
    predictors(rt, u.pmv)
}

fn decode_vectors(rt: &impl Print) -> io::Result<()> {
    print!(rt; "f_code 1, codes 3 and -2                ")?;
    let first = decode(Pmv::new(), MvFormat::Frame, plain(3, -2), 1);
    vector(rt, first)?;
    print!(rt; "then codes 15 and -16, which wrap       ")?;
    let second = decode(first.pmv, MvFormat::Frame, plain(15, -16), 1);
    vector(rt, second)?;
    print!(rt; "then a field vector, codes 0 and 1      ")?;
    let third = decode(second.pmv, MvFormat::Field, plain(0, 1), 1);
    vector(rt, third)?;
    print!(rt; "then codes 1 and 16                     ")?;
    let fourth = decode(third.pmv, MvFormat::Frame, plain(1, 16), 1);
    vector(rt, fourth)?;
    print!(rt; "frame-based motion, forward             ")?;
    update(rt, fourth.pmv, PredictionType::FrameBased)?;
    print!(rt; "16 x 8 motion in a frame picture        ")?;
    update(rt, fourth.pmv, PredictionType::SixteenByEight)?;
    print!(rt; "chrominance of (-3, -3), 4:2:0 and 4:2:2")?;
    for format in [ChromaFormat::Yuv420, ChromaFormat::Yuv422] {
        let scaled = scale_chroma(-3, -3, format);
        let h = scaled.chroma_horiz;
        let v = scaled.chroma_vert;
        print!(rt; " ({h}, {v})")?;
    }
    println!(rt)
}

fn samples(rt: &impl Print, s: &[u8]) -> io::Result<()> {
    for sample in s {
        print!(rt; " {sample}")?;
    }
    println!(rt)
}

/// What a call has written, or the number of its refusal and what the output keeps.
fn answer<R: Into<u32>>(rt: &impl Print, a: Result<(), R>, out: &[u8]) -> io::Result<()> {
    if let Err(refusal) = a {
        refused(rt, refusal.into())?;
        print!(rt; "; the output keeps")?;
    }
    samples(rt, out)
}

/// A plane of eight columns and six rows.
fn plane<'a>(samples: &'a [u8]) -> ReferencePlane<'a> {
    ReferencePlane {
        sides: PlaneSides {
            width: 8,
            height: 6,
        },
        samples: samples,
    }
}

/// Four columns and two rows.
const SIZE: BlockSize = BlockSize {
    width: 4,
    height: 2,
};

/// The block at (2, 1), by a vector in half samples.
fn predict<'a, R: Reference<'a>>(
    rt: &impl Print,
    reference: R,
    horizontal: i32,
    vertical: i32,
    out: &mut [u8],
) -> io::Result<()> {
    let a = predict_block(reference, 2, 1, SIZE, horizontal, vertical, out);
    answer(rt, a, out)
}

fn form(rt: &impl Print) -> io::Result<()> {
    let rows = [
        10u8, 20, 30, 40, 50, 60, 70, 80, 11, 21, 31, 41, 51, 61, 71, 81, 12, 22, 32, 42, 52, 62,
        72, 82, 13, 23, 33, 43, 53, 63, 73, 83, 14, 24, 34, 44, 54, 64, 74, 84, 15, 25, 35, 45, 55,
        65, 75, 85,
    ];
    let mut block = [0u8; 8];
    let mut short = [7u8; 3];
    println!(rt;
        "a plane of 8 columns; row r, column c holds 10 (c + 1) + r; blocks of 4 columns and 2 rows"
    )?;
    print!(rt; "at (2, 1), vector (0, 0)               ")?;
    predict(rt, plane(&rows), 0, 0, &mut block)?;
    print!(rt; "at (2, 1), vector (-3, 1)              ")?;
    predict(rt, plane(&rows), -3, 1, &mut block)?;
    print!(rt; "at (2, 1), vector (7, 0), past an edge ")?;
    predict(rt, plane(&rows), 7, 0, &mut block)?;
    print!(rt; "bottom field, at (2, 1), vector (0, 1) ")?;
    let bottom = FieldReference {
        plane: plane(&rows),
        parity: FieldParity::Bottom,
    };
    predict(rt, bottom, 0, 1, &mut block)?;
    print!(rt; "a plane of 47 samples                  ")?;
    predict(rt, plane(&rows[..47]), 0, 0, &mut block)?;
    print!(rt; "an output of 3                         ")?;
    predict(rt, plane(&rows), 0, 0, &mut short)
}

fn average(rt: &impl Print, forward: &[u8], backward: &[u8], out: &mut [u8]) -> io::Result<()> {
    let a = average_predictions(forward, backward, out);
    answer(rt, a, out)
}

fn combine(rt: &impl Print) -> io::Result<()> {
    let forward = [0u8, 255, 16, 17, 100, 101, 235, 240];
    let backward = [1u8, 255, 17, 17, 50, 50, 16, 241];
    let three = [9u8; 3];
    let mut mean = [0u8; 8];
    let mut short = [7u8; 3];
    print!(rt; "forward                ")?;
    samples(rt, &forward)?;
    print!(rt; "backward               ")?;
    samples(rt, &backward)?;
    print!(rt; "mean of both           ")?;
    average(rt, &forward, &backward, &mut mean)?;
    print!(rt; "forward only           ")?;
    let chosen = combine_directional_predictions(PredictionDirection::Forward, &forward, &backward);
    samples(rt, chosen)?;
    print!(rt; "backward only          ")?;
    let chosen = combine_directional_predictions(
        PredictionDirection::Backward,
        &forward,
        &backward,
    );
    samples(rt, chosen)?;
    print!(rt; "inputs of 8 and 3      ")?;
    average(rt, &forward, &three, &mut short)?;
    print!(rt; "an output of 3 for 8   ")?;
    average(rt, &forward, &backward, &mut short)
}

fn main(rt: HostRuntime) -> io::Result<()> {
    decode_vectors(&rt)?;
    form(&rt)?;
    combine(&rt)
}
