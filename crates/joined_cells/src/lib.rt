//! Pixels joined over the edges of a raster: forests with a parent for each pixel, and the numbers of their trees.
#![tactic(auto)]

mod edge_test;
mod flood;
mod forest;
mod measures;
mod numbers;
mod trees;

pub use crate::edge_test::EdgeTest;
pub use crate::forest::{hang, join, own_parents};
pub use crate::measures::{Measures, measure_trees};
pub use crate::numbers::number_place;
pub use crate::trees::{Trees, number_trees};
