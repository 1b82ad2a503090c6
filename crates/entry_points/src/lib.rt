//! What the C interface of the card does: four calls on numbers and byte slices, over the calls of the layers. The crate `fozdrik` exports them.
#![tactic(auto)]

/// The entry point that predicts a field-based macroblock.
pub mod field_based;
/// The entry point that predicts a frame-based macroblock.
pub mod frame_based;
/// What is read of the numbers of a prediction.
mod numbers;
/// The entry points that predict.
pub mod prediction;
/// The entry points for vectors and predictors, with their buffers.
pub mod vectors;
