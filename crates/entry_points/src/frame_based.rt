//! The C call for a macroblock that is predicted by one vector in each direction. The C interface has it beside the field-based call, which
//! takes other numbers.
ghost use Rattle.std.specs.Prelude.{◌≡◌, length, is_some};
ghost use Rattle.forming_predictions.specs.Means.{rounded};
ghost use Rattle.inter_reconstruction.specs.Motion.{frame_uses};
ghost use Rattle.inter_reconstruction.specs.Frames.{samples_of, lengths_of, read_reference};
ghost use Rattle.inter_reconstruction.specs.Macroblock.{predicted};
ghost use Rattle.inter_reconstruction.specs.Refusals.{prediction_number, prediction_refusal};
ghost use Rattle.entry_points.specs.Entries.{call_number, unless_number, frame_known, geometry_of, reference_of, frame_motion_of};

use crate::numbers::{
    FrameVectorNumbers, GeometryNumbers, ReferenceNumbers, predict_read, read_prediction,
};
use crate::prediction::NO_MEANING;
use forming_predictions::{PlaneSides, ReferencePlane};

/// The prediction of a frame-based macroblock: 0, or the number of the refusal.
pub fn fozdrik_predict_frame_macroblock(
    width: usize,
    height: usize,
    chroma_format: u32,
    mb_col: usize,
    mb_row: usize,
    forward_present: u32,
    forward_width: usize,
    forward_height: usize,
    forward_format: u32,
    forward_y_width: usize,
    forward_y_height: usize,
    forward_cb_width: usize,
    forward_cb_height: usize,
    forward_cr_width: usize,
    forward_cr_height: usize,
    forward_y: &[u8],
    forward_cb: &[u8],
    forward_cr: &[u8],
    backward_present: u32,
    backward_width: usize,
    backward_height: usize,
    backward_format: u32,
    backward_y_width: usize,
    backward_y_height: usize,
    backward_cb_width: usize,
    backward_cb_height: usize,
    backward_cr_width: usize,
    backward_cr_height: usize,
    backward_y: &[u8],
    backward_cb: &[u8],
    backward_cr: &[u8],
    forward_motion: u32,
    forward_horizontal: i32,
    forward_vertical: i32,
    backward_motion: u32,
    backward_horizontal: i32,
    backward_vertical: i32,
    out: &mut [u8],
) -> u32
    ensures number { let known = frame_known chroma_format forward_present forward_format backward_present backward_format forward_motion backward_motion in
        let dest = geometry_of width height chroma_format in
        let forward = reference_of forward_present forward_width forward_height forward_format forward_y_width forward_y_height forward_cb_width forward_cb_height forward_cr_width forward_cr_height in
        let backward = reference_of backward_present backward_width backward_height backward_format backward_y_width backward_y_height backward_cb_width backward_cb_height backward_cr_width backward_cr_height in
        let forward_lengths = lengths_of (samples_of forward_y.now forward_cb.now forward_cr.now) in
        let backward_lengths = lengths_of (samples_of backward_y.now backward_cb.now backward_cr.now) in
        let motion = frame_motion_of forward_motion forward_horizontal forward_vertical backward_motion backward_horizontal backward_vertical in
        let used = frame_uses motion (is_some forward) (is_some backward) in
        let refusal = prediction_refusal dest (length out.old) forward forward_lengths backward backward_lengths used mb_col mb_row in
        result ≡ call_number prediction_number known refusal }
    ensures buffer { let dest = geometry_of width height chroma_format in
        let forward = reference_of forward_present forward_width forward_height forward_format forward_y_width forward_y_height forward_cb_width forward_cb_height forward_cr_width forward_cr_height in
        let backward = reference_of backward_present backward_width backward_height backward_format backward_y_width backward_y_height backward_cb_width backward_cb_height backward_cr_width backward_cr_height in
        let motion = frame_motion_of forward_motion forward_horizontal forward_vertical backward_motion backward_horizontal backward_vertical in
        let used = frame_uses motion (is_some forward) (is_some backward) in
        let forward_read = read_reference forward (samples_of forward_y.now forward_cb.now forward_cr.now) in
        let backward_read = read_reference backward (samples_of backward_y.now backward_cb.now backward_cr.now) in
        let prediction = predicted rounded dest.chroma_format forward_read backward_read used mb_col mb_row in
        out.new ≡ unless_number result prediction out.old }
{
    let Ok(read) = read_prediction(
        GeometryNumbers {
            width,
            height,
            format: chroma_format,
        },
        ReferenceNumbers {
            present: forward_present,
            geometry: GeometryNumbers {
                width: forward_width,
                height: forward_height,
                format: forward_format,
            },
            y: ReferencePlane {
                sides: PlaneSides {
                    width: forward_y_width,
                    height: forward_y_height,
                },
                samples: forward_y,
            },
            cb: ReferencePlane {
                sides: PlaneSides {
                    width: forward_cb_width,
                    height: forward_cb_height,
                },
                samples: forward_cb,
            },
            cr: ReferencePlane {
                sides: PlaneSides {
                    width: forward_cr_width,
                    height: forward_cr_height,
                },
                samples: forward_cr,
            },
        },
        ReferenceNumbers {
            present: backward_present,
            geometry: GeometryNumbers {
                width: backward_width,
                height: backward_height,
                format: backward_format,
            },
            y: ReferencePlane {
                sides: PlaneSides {
                    width: backward_y_width,
                    height: backward_y_height,
                },
                samples: backward_y,
            },
            cb: ReferencePlane {
                sides: PlaneSides {
                    width: backward_cb_width,
                    height: backward_cb_height,
                },
                samples: backward_cb,
            },
            cr: ReferencePlane {
                sides: PlaneSides {
                    width: backward_cr_width,
                    height: backward_cr_height,
                },
                samples: backward_cr,
            },
        },
        FrameVectorNumbers {
            present: forward_motion,
            horizontal: forward_horizontal,
            vertical: forward_vertical,
        },
        FrameVectorNumbers {
            present: backward_motion,
            horizontal: backward_horizontal,
            vertical: backward_vertical,
        },
    ) else {
        return NO_MEANING;
    };
    predict_read(read, mb_col, mb_row, out)
}
