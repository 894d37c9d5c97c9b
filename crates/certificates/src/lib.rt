//! Results of solved tiles and seams, and the checks of the certificates that they carry. There is no solver
//! here.
#![tactic(auto)]

mod anchor;
mod beside;
mod cut;
mod cycles;
mod edge_costs;
pub mod laws;
mod numbers;
mod results;
mod row_sums;
mod seam_costs;
mod seam_edges;
mod seam_flows;
mod seams;
mod tile;
mod tile_costs;
mod tile_ends;
mod tile_faces;
mod tile_set;
mod tiles;
mod values;
mod verdicts;

pub use crate::beside::check_whole_side_by_side;
pub use crate::edge_costs::edge_cost;
pub use crate::results::{SeamResult, TileResult};
pub use crate::seam_edges::{is_seam_edge, next_start, seam_count};
pub use crate::seams::check_flows;
pub use crate::tile_ends::TileEnds;
pub use crate::tile_set::TileSet;
pub use crate::tiles::{check_faces, check_tile, check_whole};
pub use crate::values::level;
pub use crate::verdicts::{SeamVerdict, TileVerdict};
