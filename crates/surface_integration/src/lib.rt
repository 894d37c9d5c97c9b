//! Whole cycles above the phase over a window, added up from its first pixel so that the surface departs from
//! the wrapped difference of each edge by the edge's correction.
#![tactic(auto)]

mod cycles;
mod limits;
mod number;
mod rises;
mod rows;

pub use crate::cycles::{integrate, integrate_wide};
pub use crate::limits::MAX_NARROW_CYCLES;
