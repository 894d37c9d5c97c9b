//! The mask of a raster after a list of edits: the mask at the newest revision, and for each tile the revision
//! at which it changed last.
#![tactic(auto)]

mod changes;
mod edits;
pub mod laws;
mod revisions;

pub use crate::changes::tiles_met;
pub use crate::revisions::Revisions;
