//! First masks made by a rule, and the patches of equal keys that they are told by. A screen drops pixels of a raster
//! whose weight is small, that have few strong pixels near them, or that lie in small patches.
#![tactic(auto)]

mod extent;
mod flood;
mod keeping;
mod labels;
pub mod laws;
mod patches;
mod screen;
mod sums;
mod terms;

pub use crate::patches::Patches;
pub use crate::screen::{EnoughTest, Screen};
pub use crate::terms::ScreenTerms;
