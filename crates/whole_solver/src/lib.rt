//! Solves the whole raster of a sheet as one tile: the surface that costs least of all, and the faces that prove it.
#![tactic(auto)]

mod anchoring;
mod judging;
mod limits;
mod network;
mod result;
mod solving;

pub use crate::result::WholeResult;
pub use crate::solving::{solve_whole, solve_whole_from};
