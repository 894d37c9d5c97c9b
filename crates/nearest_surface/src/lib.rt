//! The surface that differs from a wrapped phase by whole cycles and is nearest to a given surface.
#![tactic(auto)]

mod fault;
pub mod laws;
mod surface;
mod value;

pub use fault::NearestFault;
pub use surface::bring_nearest;
