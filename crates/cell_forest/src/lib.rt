//! Trees that grow over a grid of cells, by which flow finds the cheapest ways. It promises only that each call returns.
#![tactic(auto)]

mod cell;
mod crossing;
mod forest;
mod growing;
mod opening;
mod queue;
mod record;
mod searching;
mod stop;

pub use crate::cell::{
    BEYOND, Cell, DOWN, FREE, LEFT, MOST_SMALL_WEIGHT, OUTSIDE, RIGHT, ROOT, SmallCell, UP,
};
pub use crate::crossing::{Crossing, crossing_of, push};
pub use crate::forest::{Forest, PATIENCE};
pub use crate::record::{Record, cell_at};
pub use crate::stop::Stop;
