//! Flow networks whose arcs keep reduced costs of at least 0, and a network whose arcs are kept in lists.
#![tactic(auto)]

pub mod laws;
mod limits;
mod net;
mod network;
mod slices;

pub use limits::{MAX_AMOUNT, MAX_ARC_COST, MAX_PATH_COST, MAX_POTENTIAL, POTENTIAL_BOUND};
pub use net::FlowNet;
pub use network::Network;
pub use slices::{add_each, carry};
