//! The verdict on the text of a surface over the whole raster: it is certified for a sheet and a mask, or the first thing
//! that is wrong with it. Contains no solver.
#![tactic(auto)]

mod check;
mod judged;
pub mod laws;
mod values;
mod verdict;

pub use crate::check::check_whole_text;
pub use crate::verdict::WholeVerdict;
