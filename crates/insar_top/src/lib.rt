//! The whole program as one call: words and bytes in; a report, a grid, a verdict, a trial's lines, a screened session,
//! closures, displacements, a surface that costs least of all or is nearest to another, its parts, or what readers saw out, or a refusal.
#![tactic(auto)]

pub mod laws;
mod screen;
mod top;

pub use top::{insar, starved};
