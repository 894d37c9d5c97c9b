//! Analysts and workers together: each analyst's script runs in a thread of its own, and if it settles, workers solve the
//! tiles, all over one desk.
#![tactic(auto)]

mod curator;
mod early;
mod gate;
mod rising;
mod scripts;
mod settling;
mod solving;
mod watcher;
mod watching;

pub use crate::curator::Curator;
pub use crate::gate::{Gate, OpenGate};
pub use crate::scripts::run_scripts;
pub use crate::settling::settle;
pub use crate::watcher::Watcher;
pub use crate::watching::run_watched;
