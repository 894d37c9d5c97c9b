//! The network of a window: its cells and the outside are the nodes, and arcs lead across its edges. Once it is balanced,
//! it tells the corrections of the edges and the faces that certify them.
#![tactic(auto)]

mod answering;
mod arcs;
mod checking;
mod edge_numbers;
mod grid;
mod limits;
mod listing;
mod problem;
mod reaching;
mod sides;
mod supplies;
mod weighing;

pub use crate::grid::DualGrid;
pub use crate::limits::MAX_REACHED_POTENTIAL;
pub use crate::problem::Problem;
