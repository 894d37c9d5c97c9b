//! PGM planes: read exactly, as a plane or its first break with the place, and written.
#![tactic(auto)]

mod extent;
mod fault;
mod header;
pub mod laws;
mod pieces;
mod plane;
mod samples;
mod spelling;
mod write;

pub use extent::Extent;
pub use fault::{InputFault, PlaneFault, ReadPlaneFault, Role};
pub use header::MAX_SAMPLE;
pub use plane::{read_plane, read_plane_within};
pub use write::{add_header, add_plane, write_plane};
