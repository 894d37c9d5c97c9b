use crate::blocks::Order;
use crate::joints::Joint;
use crate::layout::Layout;
use crate::tracing::{Traced, trace};
use std::alloc::{AllocError, Global};

/// What of a guess at offsets depends on nothing but where regions lie: nodes, joints, and the order in which nodes are balanced.
#[derive(Drop)]
pub struct Plan {
    pub joints: Vec<Joint>,
    /// The joint of each link, or `NONE`.
    pub joint_of: Vec<u32>,
    pub order: Order,
}

/// The plan of a raster. It may be made before there are links, and serves for any.
pub fn plan_offsets(alloc: Global, layout: Layout<'_>) -> Result<Plan, AllocError> {
    let (traced, joint_of) = trace(alloc, layout)?;
    let Traced {
        mut spots,
        mut joints,
        ..
    } = traced;
    let across = layout.tile(layout.width.wrapping_sub(1));
    let along = layout.tile(layout.height.wrapping_sub(1));
    for joint in &mut joints {
        joint.mark_ends(&mut spots);
    }
    let order = Order::of(alloc, &mut spots, across, along)?;
    for joint in &mut joints {
        joint.settle_ends(&spots);
    }
    Ok(Plan {
        joints,
        joint_of,
        order,
    })
}
