//! The verdict on a report for a session: it is certified, or the first thing that is wrong with it. Contains no solver.
#![tactic(auto)]

mod fault;
mod header;
mod history;
pub mod laws;
mod replay;
mod report;
mod shown;
mod surfaces;
mod verdict;

pub use crate::report::check_report;
pub use crate::verdict::CheckVerdict;
