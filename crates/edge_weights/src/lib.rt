//! Weights of edges by a rule: one of the three kinds, or any closure together with the fact that it answers the
//! numbers of a kind. And sessions, with tiles or without, put together of planes and scripts.
#![tactic(auto)]

mod kinds;
mod numbers;
mod parts;
mod rule;
mod settings;
mod whole;

pub use kinds::{weigh, weigh_side_by_side};
pub use parts::SessionParts;
pub use rule::WeightRule;
pub use settings::SceneSettings;
pub use whole::{WholeParts, WholeScene, WholeSession};
