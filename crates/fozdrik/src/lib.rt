//! The C interface of the card: four entry points, each of which is the call of `entry_points` with its name.
#![tactic(auto)]

ghost use Rattle.std.specs.Prelude.{◌≡◌, cond, [], ◌∷◌, length, is_some};
ghost use Rattle.std.specs.Result.{result_err};
ghost use Rattle.forming_predictions.specs.Means.{rounded};
ghost use Rattle.pmv.specs.Update.{update_refusal, update_outcome, outcome_number, updated};
ghost use Rattle.pmv.specs.Refusals.{vector_number, update_number};
ghost use Rattle.inter_reconstruction.specs.Motion.{frame_uses, field_uses};
ghost use Rattle.inter_reconstruction.specs.Frames.{samples_of, lengths_of, read_reference};
ghost use Rattle.inter_reconstruction.specs.Macroblock.{predicted};
ghost use Rattle.inter_reconstruction.specs.Refusals.{prediction_number, prediction_refusal};
ghost use Rattle.entry_points.specs.Layout.{predictors_of, predictor_bytes, with_pair};
ghost use Rattle.entry_points.specs.Entries.{call_number, unless_number, vector_known, update_known, frame_known, field_known, index_of, direction_of, format_of, structure_of, motion_vector_of, context_of, vector_from, vector_bytes, geometry_of, reference_of, frame_motion_of, field_motion_of};

/// A vector's two components against its predictors: 0, or the number of the refusal.
#[unsafe(no_mangle)]
pub extern "C" fn fozdrik_reconstruct_motion_vector(
    r: u32,
    s: u32,
    motion_code_horiz: i32,
    motion_residual_horiz_present: u32,
    motion_residual_horiz: u8,
    motion_code_vert: i32,
    motion_residual_vert_present: u32,
    motion_residual_vert: u8,
    f_code_horiz: u8,
    f_code_vert: u8,
    mv_format: u32,
    picture_structure: u32,
    predictors: &mut [u8],
    vector: &mut [u8],
) -> u32
    ensures number { let known = vector_known r s motion_residual_horiz_present motion_residual_vert_present mv_format picture_structure (length predictors.old) (length vector.old) in
        let coded = motion_vector_of motion_code_horiz motion_residual_horiz_present motion_residual_horiz motion_code_vert motion_residual_vert_present motion_residual_vert in
        let decoded = vector_from predictors.old (index_of r) (direction_of s) coded f_code_horiz f_code_vert (format_of mv_format) (structure_of picture_structure) in
        result ≡ call_number vector_number known (result_err decoded.answer) }
    ensures predictors { let known = vector_known r s motion_residual_horiz_present motion_residual_vert_present mv_format picture_structure (length predictors.old) (length vector.old) in
        let coded = motion_vector_of motion_code_horiz motion_residual_horiz_present motion_residual_horiz motion_code_vert motion_residual_vert_present motion_residual_vert in
        let decoded = vector_from predictors.old (index_of r) (direction_of s) coded f_code_horiz f_code_vert (format_of mv_format) (structure_of picture_structure) in
        predictors.new ≡ cond known (with_pair predictors.old (index_of r) (direction_of s) decoded.predictors) predictors.old }
    ensures vector { let known = vector_known r s motion_residual_horiz_present motion_residual_vert_present mv_format picture_structure (length predictors.old) (length vector.old) in
        let coded = motion_vector_of motion_code_horiz motion_residual_horiz_present motion_residual_horiz motion_code_vert motion_residual_vert_present motion_residual_vert in
        let decoded = vector_from predictors.old (index_of r) (direction_of s) coded f_code_horiz f_code_vert (format_of mv_format) (structure_of picture_structure) in
        vector.new ≡ cond known (vector_bytes decoded.answer vector.old) vector.old }
{
    entry_points::vectors::fozdrik_reconstruct_motion_vector(
        r,
        s,
        motion_code_horiz,
        motion_residual_horiz_present,
        motion_residual_horiz,
        motion_code_vert,
        motion_residual_vert_present,
        motion_residual_vert,
        f_code_horiz,
        f_code_vert,
        mv_format,
        picture_structure,
        predictors,
        vector,
    )
}

/// The predictors after a macroblock, and the outcome's number in one byte: 0, or the number of the refusal.
#[unsafe(no_mangle)]
pub extern "C" fn fozdrik_update_predictors(
    picture_structure: u32,
    prediction_type_present: u32,
    prediction_type: u32,
    macroblock_motion_forward: u32,
    macroblock_motion_backward: u32,
    macroblock_intra: u32,
    concealment_motion_vectors: u32,
    predictors: &mut [u8],
    outcome: &mut [u8],
) -> u32
    ensures number { let known = update_known picture_structure prediction_type_present prediction_type macroblock_motion_forward macroblock_motion_backward macroblock_intra concealment_motion_vectors (length predictors.old) (length outcome.old) in
        let context = context_of picture_structure prediction_type_present prediction_type macroblock_motion_forward macroblock_motion_backward macroblock_intra concealment_motion_vectors in
        result ≡ call_number update_number known (update_refusal context) }
    ensures predictors { let context = context_of picture_structure prediction_type_present prediction_type macroblock_motion_forward macroblock_motion_backward macroblock_intra concealment_motion_vectors in
        predictors.new ≡ unless_number result (predictor_bytes (updated (predictors_of predictors.old) context).pmv) predictors.old }
    ensures outcome { let context = context_of picture_structure prediction_type_present prediction_type macroblock_motion_forward macroblock_motion_backward macroblock_intra concealment_motion_vectors in
        outcome.new ≡ unless_number result (outcome_number (update_outcome context) ∷ []) outcome.old }
{
    entry_points::vectors::fozdrik_update_predictors(
        picture_structure,
        prediction_type_present,
        prediction_type,
        macroblock_motion_forward,
        macroblock_motion_backward,
        macroblock_intra,
        concealment_motion_vectors,
        predictors,
        outcome,
    )
}

/// The prediction of a frame-based macroblock: 0, or the number of the refusal.
#[unsafe(no_mangle)]
pub extern "C" fn fozdrik_predict_frame_macroblock(
    width: usize,
    height: usize,
    chroma_format: u32,
    mb_col: usize,
    mb_row: usize,
    forward_present: u32,
    forward_width: usize,
    forward_height: usize,
    forward_format: u32,
    forward_y_width: usize,
    forward_y_height: usize,
    forward_cb_width: usize,
    forward_cb_height: usize,
    forward_cr_width: usize,
    forward_cr_height: usize,
    forward_y: &[u8],
    forward_cb: &[u8],
    forward_cr: &[u8],
    backward_present: u32,
    backward_width: usize,
    backward_height: usize,
    backward_format: u32,
    backward_y_width: usize,
    backward_y_height: usize,
    backward_cb_width: usize,
    backward_cb_height: usize,
    backward_cr_width: usize,
    backward_cr_height: usize,
    backward_y: &[u8],
    backward_cb: &[u8],
    backward_cr: &[u8],
    forward_motion: u32,
    forward_horizontal: i32,
    forward_vertical: i32,
    backward_motion: u32,
    backward_horizontal: i32,
    backward_vertical: i32,
    out: &mut [u8],
) -> u32
    ensures number { let known = frame_known chroma_format forward_present forward_format backward_present backward_format forward_motion backward_motion in
        let dest = geometry_of width height chroma_format in
        let forward = reference_of forward_present forward_width forward_height forward_format forward_y_width forward_y_height forward_cb_width forward_cb_height forward_cr_width forward_cr_height in
        let backward = reference_of backward_present backward_width backward_height backward_format backward_y_width backward_y_height backward_cb_width backward_cb_height backward_cr_width backward_cr_height in
        let forward_lengths = lengths_of (samples_of forward_y.now forward_cb.now forward_cr.now) in
        let backward_lengths = lengths_of (samples_of backward_y.now backward_cb.now backward_cr.now) in
        let motion = frame_motion_of forward_motion forward_horizontal forward_vertical backward_motion backward_horizontal backward_vertical in
        let used = frame_uses motion (is_some forward) (is_some backward) in
        let refusal = prediction_refusal dest (length out.old) forward forward_lengths backward backward_lengths used mb_col mb_row in
        result ≡ call_number prediction_number known refusal }
    ensures buffer { let dest = geometry_of width height chroma_format in
        let forward = reference_of forward_present forward_width forward_height forward_format forward_y_width forward_y_height forward_cb_width forward_cb_height forward_cr_width forward_cr_height in
        let backward = reference_of backward_present backward_width backward_height backward_format backward_y_width backward_y_height backward_cb_width backward_cb_height backward_cr_width backward_cr_height in
        let motion = frame_motion_of forward_motion forward_horizontal forward_vertical backward_motion backward_horizontal backward_vertical in
        let used = frame_uses motion (is_some forward) (is_some backward) in
        let forward_read = read_reference forward (samples_of forward_y.now forward_cb.now forward_cr.now) in
        let backward_read = read_reference backward (samples_of backward_y.now backward_cb.now backward_cr.now) in
        let prediction = predicted rounded dest.chroma_format forward_read backward_read used mb_col mb_row in
        out.new ≡ unless_number result prediction out.old }
{
    entry_points::prediction::fozdrik_predict_frame_macroblock(
        width,
        height,
        chroma_format,
        mb_col,
        mb_row,
        forward_present,
        forward_width,
        forward_height,
        forward_format,
        forward_y_width,
        forward_y_height,
        forward_cb_width,
        forward_cb_height,
        forward_cr_width,
        forward_cr_height,
        forward_y,
        forward_cb,
        forward_cr,
        backward_present,
        backward_width,
        backward_height,
        backward_format,
        backward_y_width,
        backward_y_height,
        backward_cb_width,
        backward_cb_height,
        backward_cr_width,
        backward_cr_height,
        backward_y,
        backward_cb,
        backward_cr,
        forward_motion,
        forward_horizontal,
        forward_vertical,
        backward_motion,
        backward_horizontal,
        backward_vertical,
        out,
    )
}

/// The prediction of a field-based macroblock: 0, or the number of the refusal.
#[unsafe(no_mangle)]
pub extern "C" fn fozdrik_predict_field_macroblock(
    width: usize,
    height: usize,
    chroma_format: u32,
    mb_col: usize,
    mb_row: usize,
    forward_present: u32,
    forward_width: usize,
    forward_height: usize,
    forward_format: u32,
    forward_y_width: usize,
    forward_y_height: usize,
    forward_cb_width: usize,
    forward_cb_height: usize,
    forward_cr_width: usize,
    forward_cr_height: usize,
    forward_y: &[u8],
    forward_cb: &[u8],
    forward_cr: &[u8],
    backward_present: u32,
    backward_width: usize,
    backward_height: usize,
    backward_format: u32,
    backward_y_width: usize,
    backward_y_height: usize,
    backward_cb_width: usize,
    backward_cb_height: usize,
    backward_cr_width: usize,
    backward_cr_height: usize,
    backward_y: &[u8],
    backward_cb: &[u8],
    backward_cr: &[u8],
    forward_motion: u32,
    forward_top_field: u32,
    forward_top_horizontal: i32,
    forward_top_vertical: i32,
    forward_bottom_field: u32,
    forward_bottom_horizontal: i32,
    forward_bottom_vertical: i32,
    backward_motion: u32,
    backward_top_field: u32,
    backward_top_horizontal: i32,
    backward_top_vertical: i32,
    backward_bottom_field: u32,
    backward_bottom_horizontal: i32,
    backward_bottom_vertical: i32,
    out: &mut [u8],
) -> u32
    ensures number { let known = field_known chroma_format forward_present forward_format backward_present backward_format forward_motion forward_top_field forward_bottom_field backward_motion backward_top_field backward_bottom_field in
        let dest = geometry_of width height chroma_format in
        let forward = reference_of forward_present forward_width forward_height forward_format forward_y_width forward_y_height forward_cb_width forward_cb_height forward_cr_width forward_cr_height in
        let backward = reference_of backward_present backward_width backward_height backward_format backward_y_width backward_y_height backward_cb_width backward_cb_height backward_cr_width backward_cr_height in
        let forward_lengths = lengths_of (samples_of forward_y.now forward_cb.now forward_cr.now) in
        let backward_lengths = lengths_of (samples_of backward_y.now backward_cb.now backward_cr.now) in
        let motion = field_motion_of
        forward_motion forward_top_field forward_top_horizontal forward_top_vertical forward_bottom_field forward_bottom_horizontal forward_bottom_vertical
        backward_motion backward_top_field backward_top_horizontal backward_top_vertical backward_bottom_field backward_bottom_horizontal backward_bottom_vertical in
        let used = field_uses motion (is_some forward) (is_some backward) in
        let refusal = prediction_refusal dest (length out.old) forward forward_lengths backward backward_lengths used mb_col mb_row in
        result ≡ call_number prediction_number known refusal }
    ensures buffer { let dest = geometry_of width height chroma_format in
        let forward = reference_of forward_present forward_width forward_height forward_format forward_y_width forward_y_height forward_cb_width forward_cb_height forward_cr_width forward_cr_height in
        let backward = reference_of backward_present backward_width backward_height backward_format backward_y_width backward_y_height backward_cb_width backward_cb_height backward_cr_width backward_cr_height in
        let motion = field_motion_of
        forward_motion forward_top_field forward_top_horizontal forward_top_vertical forward_bottom_field forward_bottom_horizontal forward_bottom_vertical
        backward_motion backward_top_field backward_top_horizontal backward_top_vertical backward_bottom_field backward_bottom_horizontal backward_bottom_vertical in
        let used = field_uses motion (is_some forward) (is_some backward) in
        let forward_read = read_reference forward (samples_of forward_y.now forward_cb.now forward_cr.now) in
        let backward_read = read_reference backward (samples_of backward_y.now backward_cb.now backward_cr.now) in
        let prediction = predicted rounded dest.chroma_format forward_read backward_read used mb_col mb_row in
        out.new ≡ unless_number result prediction out.old }
{
    entry_points::prediction::fozdrik_predict_field_macroblock(
        width,
        height,
        chroma_format,
        mb_col,
        mb_row,
        forward_present,
        forward_width,
        forward_height,
        forward_format,
        forward_y_width,
        forward_y_height,
        forward_cb_width,
        forward_cb_height,
        forward_cr_width,
        forward_cr_height,
        forward_y,
        forward_cb,
        forward_cr,
        backward_present,
        backward_width,
        backward_height,
        backward_format,
        backward_y_width,
        backward_y_height,
        backward_cb_width,
        backward_cb_height,
        backward_cr_width,
        backward_cr_height,
        backward_y,
        backward_cb,
        backward_cr,
        forward_motion,
        forward_top_field,
        forward_top_horizontal,
        forward_top_vertical,
        forward_bottom_field,
        forward_bottom_horizontal,
        forward_bottom_vertical,
        backward_motion,
        backward_top_field,
        backward_top_horizontal,
        backward_top_vertical,
        backward_bottom_field,
        backward_bottom_horizontal,
        backward_bottom_vertical,
        out,
    )
}
