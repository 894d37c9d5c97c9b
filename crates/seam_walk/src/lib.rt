//! A walk along the seams of a tiled raster: the cells where they meet, the stretches between these, and an order of the cells by
//! blocks of tiles. It promises only that it returns.
#![tactic(auto)]

mod blocks;
mod joints;
mod layout;
mod places;
mod plan;
mod spots;
mod tracing;
mod walking;

pub use crate::blocks::Order;
pub use crate::joints::{Joint, NO_JOINT};
pub use crate::layout::Layout;
pub use crate::places::{FIRST_INSIDE, NONE, number};
pub use crate::plan::{Plan, plan_offsets};
pub use crate::tracing::trace_again;
