//! Small scenes, masks, results and boards by hand, from which the tests of other crates begin, and how rows of text are read.
#![tactic(auto)]

mod boards;
mod rows;
mod scenes;

pub use crate::boards::{board, board_on, session};
pub use crate::rows::{cycles, field, number, numbers, samples};
pub use crate::scenes::{SceneFault, masked, plane, scene, scene_on, tile_result};
