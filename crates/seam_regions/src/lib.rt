//! The regions of a tiled raster under a mask. Two open pixels of one tile are in one region if a walk through open
//! pixels of that tile joins them. The regions are found with a forest, which has a parent for each pixel.
#![tactic(auto)]

mod columns;
mod flood;
mod numbers;
mod offsets;
mod pieces;
mod regions;

pub use crate::columns::next_left;
pub use crate::offsets::first_far;
pub use crate::regions::Regions;
