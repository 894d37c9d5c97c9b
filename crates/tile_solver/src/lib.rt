//! Solves one tile: finds least corrections by network flow, cycles that depart by them, and the faces that certify
//! both.
#![tactic(auto)]

mod solving;

pub use crate::solving::{solve_tile, solve_tile_from};
