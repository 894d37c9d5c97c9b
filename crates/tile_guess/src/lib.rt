//! A fast guess at the least flow of one tile. It promises only that it returns, so its caller checks what it answers.
#![tactic(auto)]

mod answers;
mod grid;
mod loading;
mod solving;

pub use crate::grid::{Grid, Guess, guess_flow};
