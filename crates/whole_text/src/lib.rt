//! The text of a surface over the whole raster, with its cost and the faces that certify it: written, and read again.
#![tactic(auto)]

mod face_rows;
pub mod laws;
mod parse;
mod read;
mod rows;
mod whole;
mod write;

pub use crate::read::read_whole;
pub use crate::whole::Whole;
pub use crate::write::write_whole;
