//! Large test sessions, each made from a number.
#![tactic(auto)]

mod fault;
mod numbers;
mod planes;
mod samples;
mod session;

pub use fault::TrialFault;
pub use session::{make_session, make_session_on};
