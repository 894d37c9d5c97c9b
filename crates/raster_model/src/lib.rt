//! Rasters of phase, their pixels, edges and tiles, and the definitions that every contract of this
//! repository cites: wrapped differences, weights, congruent surfaces, costs, certificates, best surfaces.
#![tactic(auto)]

mod bits;
mod edge;
mod heights;
pub mod laws;
mod limits;
mod mask;
mod measures;
mod phase;
pub mod plain;
mod plane;
mod scene;
mod script;
mod session;
mod sheet;
mod terms;
mod tiling;
mod weights;

pub use crate::edge::Edge;
pub use crate::heights::Heights;
pub use crate::limits::{
    DEFAULT_TILE_SIDE, DEFAULT_WORKERS, MAX_ANALYSTS, MAX_CHANGED_TILES, MAX_COMMANDS,
    MAX_CYCLE_COST, MAX_DEPARTURE, MAX_FURTHER_COST, MAX_HEIGHT, MAX_NETWORK_NODES, MAX_OFFSET,
    MAX_PIXELS, MAX_REACHED_CYCLES, MAX_REGIONS, MAX_REPORT_BYTES, MAX_SEAM_DEPARTURE,
    MAX_SESSION_BYTES, MAX_SETTLED_PIXELS, MAX_SIDE, MAX_STEEPNESS, MAX_TILE_CYCLES, MAX_TILE_SIDE,
    MAX_TILED_NODES, MAX_TILED_PIXELS, MAX_TILED_SIDE, MAX_WEIGHT, MAX_WHOLE_CYCLES, MAX_WORKERS,
    MIN_TILE_SIDE, is_raster_size, is_tiled_size,
};
pub use crate::mask::Mask;
pub use crate::measures::{departure, first_open, stored_weight, turns, weight};
pub use crate::phase::{turns_ramp, wrapped, wrapped_ramp};
pub use crate::plane::{Plane, PlaneShape};
pub use crate::scene::Scene;
pub use crate::script::{Command, Edit, Rect, Script};
pub use crate::session::Session;
pub use crate::sheet::Sheet;
pub use crate::terms::Terms;
pub use crate::tiling::{Tiling, Window};
pub use crate::weights::{EdgeWeights, RuleKind};
