//! Offsets of the regions of a tiled raster: a network over the seams finds whole cycles for each region, and flows that
//! certify them.
#![tactic(auto)]

mod answer;
mod fairness;
mod guessing;
mod lane;
mod lanes;
mod links;
mod network;
mod places;
mod solving;
mod start;
mod strips;
mod surface;

pub use crate::guessing::{Hint, plan_seams};
pub use crate::solving::{solve_offsets, solve_offsets_from, solve_offsets_side_by_side};
