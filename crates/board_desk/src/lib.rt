//! A session's board under a lock that serves calls in their order. Each analyst and each worker asks the desk with a
//! pass. An answer is that of the board at one point of its history, which begins with all that the pass had seen.
#![tactic(auto)]

mod desk;
mod law;
mod lock;
mod pass;
mod stamped;

pub use crate::desk::Desk;
pub use crate::pass::Pass;
pub use crate::stamped::Stamped;
