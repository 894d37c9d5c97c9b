//! The history of a session and what follows from it: which results of tiles are kept, which surfaces are published,
//! and which command of each analyst comes next. An event is one call, and each call adds one legal entry or changes
//! nothing.
#![tactic(auto)]

mod answers;
mod board;
mod cursors;
mod entry;
mod gathered;
mod kept;
mod lacking;
pub mod laws;
mod places;
mod ticket;

pub use crate::answers::{Advance, AdvanceFault, ClaimFault, GatherFault, KeepFault, PublishFault};
pub use crate::board::Board;
pub use crate::cursors::{all_ended, command_at, cursor_of};
pub use crate::entry::Entry;
pub use crate::gathered::{Gathered, PresentMask};
pub use crate::places::set_all;
pub use crate::ticket::Ticket;
