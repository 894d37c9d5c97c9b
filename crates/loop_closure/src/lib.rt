//! Loop closure: what three unwrapped interferograms of three acquisitions leave around the loop, which shows faults of
//! unwrapping.
#![tactic(auto)]

mod closing;
mod closures;
mod cycles;
mod fault;
pub mod laws;
mod loops;
mod text;

pub use crate::closing::close_loop;
pub use crate::fault::LoopFault;
pub use crate::loops::Loops;
pub use crate::text::write_loops;
