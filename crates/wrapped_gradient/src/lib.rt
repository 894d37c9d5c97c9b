//! Wrapped differences of the edges of a window, the residues of its cells, and whole-cycle corrections of
//! its edges.
#![tactic(auto)]

mod corrections;
mod gradients;

pub use crate::corrections::Corrections;
pub use crate::gradients::Gradients;
