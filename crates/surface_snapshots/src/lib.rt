//! Published surfaces. A snapshot is the surface of the tiles' results with an offset added on each region. Its ghost
//! fields keep the fact that it is certified: no congruent surface costs less in a tile, and no offsets make its seams
//! cost less.
#![tactic(auto)]

mod blocks;
mod costs;
mod counting;
mod fault;
mod finding;
mod flows;
pub mod laws;
mod levels;
mod marks;
mod packed;
mod packing;
mod runs;
mod shifted;
mod snapshot;
mod strips;
mod surface;
mod tiled;
mod windows;

pub use crate::counting::Costs;
pub use crate::fault::BuildFault;
pub use crate::packed::PackedRegions;
pub use crate::snapshot::Snapshot;
