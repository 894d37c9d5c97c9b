//! Displacement along the line of sight: nanometres from unwrapped phase, relative to a reference pixel, averaged over
//! blocks.
#![tactic(auto)]

mod blocks;
mod displacing;
mod fault;
pub mod laws;
mod sight;
mod total;

pub use displacing::displace;
pub use fault::SightFault;
pub use sight::{MAX_BLOCK, MAX_WAVELENGTH, Sight};
