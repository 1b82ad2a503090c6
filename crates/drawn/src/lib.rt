//! What a list of cases says of frames, and what it names by a seed: bytes, and the planes of references.
#![tactic(auto)]

mod draws;
mod frames;
mod references;

pub use draws::Draws;
pub use frames::geometry;
pub use references::{Extent, Plane, Planes, References};
