//! ISO/IEC 13818-2, 7.6.3: motion vectors and their predictors. Differences of vectors are read from the stream; a vector is the sum of a
//! difference and a predictor, wrapped into the range that f_code gives, and it becomes the predictor of the next one.
#![tactic(auto)]

/// What the calls choose by, with the numbers that C and the lists know them by.
pub mod kinds;
/// 7.6.3.1: one component of a vector.
pub mod component;
/// The eight predictors.
pub mod predictors;
/// 7.6.3.1: both components of a vector, with the predictors.
pub mod vector;
/// 7.6.3.3, 7.6.3.4 and 7.7.5.1: what becomes of the predictors after a macroblock.
pub mod update;
/// 7.6.3.7: vectors of the chrominance.
pub mod chroma;
/// The predictors where they lie: lent, and updated there.
pub mod lent;
