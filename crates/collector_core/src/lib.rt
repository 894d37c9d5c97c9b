//! The rest of a session's work, done on one thread: solved tiles are joined by offsets that may be published, and the
//! analysts' scripts are done one after another.
#![tactic(auto)]

mod collecting;
mod finishing;
mod settling;

pub use crate::collecting::{collect, collect_from, collect_over};
pub use crate::finishing::finish;
