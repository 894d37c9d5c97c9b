//! Parts of a raster in which every surface of nearly the least cost has the same cycles, up to one constant: found, and
//! written.
#![tactic(auto)]

mod edges;
mod faces;
mod labels;
pub mod laws;
mod margin;
mod parts;
mod rows;
mod text;
mod whole;

pub use crate::parts::Parts;
pub use crate::text::write_parts;
pub use crate::whole::parts_of_whole;
