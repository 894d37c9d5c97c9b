//! Sessions both ways: planes of phase, weights and mask and the analysts' scripts are read exactly, as a session or the
//! first break of its form, in tiles or as a whole, and those in tiles are written back.
#![tactic(auto)]

mod fault;
mod frame;
pub mod laws;
mod line;
mod maker;
mod parts;
mod planes;
mod script;
mod sections;
mod session;
mod session_use;
mod whole;
mod word;
mod write;

pub use fault::SessionFault;
pub use session::{read_session, read_session_on, read_session_side_by_side};
pub use session_use::SessionUse;
pub use whole::{MAX_WHOLE_SESSION_BYTES, read_whole_session};
pub use write::write_session;
