//! Long texts made by one thread, or by several side by side: each thread has a page of fixed size, and pages leave in order.
#![tactic(auto)]

mod deal;
mod page;
mod passages;
mod spread;

pub use crate::passages::Passages;
pub use crate::spread::{Pages, add_all, add_side_by_side};
