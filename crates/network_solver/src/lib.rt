//! Least corrections over any window of a raster, by its network.
#![tactic(auto)]

mod leveling;
mod solving;

pub use crate::solving::{network_corrections, network_corrections_from};
