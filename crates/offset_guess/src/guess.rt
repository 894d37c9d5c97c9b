use crate::answers::{Outcome, flows, offsets, outcomes};
use crate::link::Link;
use crate::network::Network;
use seam_walk::{Layout, Order, Plan, plan_offsets, trace_again};
use std::alloc::{AllocError, Global};

/// An offset for each region in whole cycles, and a flow for each link from its first region to the other.
#[derive(Drop)]
pub struct Guess {
    pub offsets: Vec<i64>,
    pub flows: Vec<i64>,
}

/// Guesses offsets of the regions of a raster, of which there are so many, under which their links cost least, and flows that
/// certify them. `links` has one for each seam edge in edge order; None is an edge with a masked end, whose flow is 0. Nothing is
/// promised of them; they are found right in every test. It is refused for lack of memory alone.
///
/// A link costs its weight for the first cycle by which it departs, and `steep` times as much for each further one.
/// The network is that of the cells: a node is a cell where seams meet, and a stretch of a seam from one to the next is an arc
/// each way, on which a unit is a cycle of its two regions' offsets. Nothing flows where a stretch's links cost least. What the
/// nodes then have too much of goes to others with a deficit along trees that grow in time, first within blocks of tiles,
/// and then within larger ones. (Costantini 1998; Ahuja, Magnanti and Orlin 1993, "Network Flows", sections 9.8 and 14.5.)
pub fn guess_offsets(
    alloc: Global,
    layout: Layout<'_>,
    regions: u32,
    steep: u32,
    links: &[Option<Link>],
) -> Result<Guess, AllocError> {
    let Plan {
        joints,
        joint_of,
        order,
    } = plan_offsets(alloc, layout)?;
    let network = Network::of_joints(alloc, joints, &joint_of, links, steep)?;
    // No list of the joints of links is kept while trees grow, since that is when most memory is taken.
    drop(joint_of);
    let outcomes = solve(alloc, network, &order)?;
    let joint_of = trace_again(alloc, layout)?;
    answer(alloc, regions, steep, links, &joint_of, outcomes)
}

/// Guesses as `guess_offsets` does, over a plan that was made before.
pub fn guess_planned(
    alloc: Global,
    regions: u32,
    steep: u32,
    links: &[Option<Link>],
    plan: &Plan,
) -> Result<Guess, AllocError> {
    let mut joints = Vec::with_capacity(alloc, plan.joints.len())?;
    joints.extend_from_slice(&plan.joints)?;
    let joint_of: &[u32] = &plan.joint_of;
    let network = Network::of_joints(alloc, joints, joint_of, links, steep)?;
    let outcomes = solve(alloc, network, &plan.order)?;
    answer(alloc, regions, steep, links, joint_of, outcomes)
}

/// What comes out for each joint.
fn solve(alloc: Global, mut network: Network, order: &Order) -> Result<Vec<Outcome>, AllocError> {
    network.add_nodes(alloc, order.nodes)?;
    network.balance(order)?;
    let (nodes, joints) = network.parts();
    outcomes(alloc, &nodes, &joints)
}

/// The guess that comes out.
fn answer(
    alloc: Global,
    regions: u32,
    steep: u32,
    links: &[Option<Link>],
    joint_of: &[u32],
    mut outcomes: Vec<Outcome>,
) -> Result<Guess, AllocError> {
    Ok(Guess {
        offsets: offsets(alloc, regions, links, joint_of, &outcomes)?,
        flows: flows(alloc, links, joint_of, &mut outcomes, steep)?,
    })
}
