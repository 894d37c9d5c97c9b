//! A fast guess at the surface of the whole raster that costs least, and at the faces that certify it. It promises only
//! that it returns, so its caller checks what it answers.
#![tactic(auto)]

mod building;
mod draining;
mod guess;
mod integrating;
mod levels;
mod reaching;
mod residues;
mod runs;
mod stages;
mod waters;

pub use crate::guess::{Guess, guess_whole, guess_whole_within};
pub use crate::reaching::Reached;
