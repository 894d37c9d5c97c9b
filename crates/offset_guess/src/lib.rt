//! A fast guess at the offsets of regions whose seams cost least, and at the flows that certify them. It promises only that
//! it returns: who asks for a guess checks it.
#![tactic(auto)]

mod answers;
mod balancing;
mod costs;
mod growing;
mod guess;
mod heights;
mod link;
mod network;
mod pushing;
mod releasing;
mod spans;
mod steps;
mod waiting;

pub use crate::guess::{Guess, guess_offsets, guess_planned};
pub use crate::link::Link;
