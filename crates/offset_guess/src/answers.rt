use crate::heights::Heights;
use crate::link::Link;
use crate::network::{NO_NODE, Node};
use seam_walk::Joint;
use std::alloc::{AllocError, Global};

/// What came out for a joint.
#[derive(Clone, Copy)]
pub(crate) struct Outcome {
    /// The offset of the second region of its links, less that of the first.
    rise: i32,
    /// What its links carry from the first region to the other. There is a link for each pixel of a tile's side at most.
    flow: i32,
}

/// What came out for each joint: its rise, and the difference of its nodes' potentials.
pub(crate) fn outcomes(
    alloc: Global,
    nodes: &[Node],
    joints: &[Joint],
) -> Result<Vec<Outcome>, AllocError> {
    let mut outcomes = Vec::with_capacity(alloc, joints.len())?;
    for joint in joints {
        let head = nodes.get(joint.head as usize).unwrap_or(&NO_NODE);
        let tail = nodes.get(joint.tail as usize).unwrap_or(&NO_NODE);
        outcomes.push(Outcome {
            rise: joint.rise,
            flow: head.height.wrapping_sub(tail.height),
        })?;
    }
    Ok(outcomes)
}

/// The offsets of so many regions, as the rises of the joints between them ask.
pub(crate) fn offsets(
    alloc: Global,
    regions: u32,
    links: &[Option<Link>],
    joint_of: &[u32],
    outcomes: &[Outcome],
) -> Result<Vec<i64>, AllocError> {
    let mut heights = Heights::new(alloc, regions)?;
    for (link, joint) in links.iter().zip(joint_of) {
        if let Some(link) = link {
            if let Some(outcome) = outcomes.get(*joint as usize) {
                heights.tie(link.from, link.to, i64::from(outcome.rise));
            }
        }
    }
    Ok(heights.offsets())
}

/// The flows of the links: each takes of its joint's flow as much as it can carry.
pub(crate) fn flows(
    alloc: Global,
    links: &[Option<Link>],
    joint_of: &[u32],
    outcomes: &mut [Outcome],
    steep: u32,
) -> Result<Vec<i64>, AllocError> {
    take_least(links, joint_of, outcomes, steep);
    let mut flows = Vec::with_capacity(alloc, links.len())?;
    for (link, joint) in links.iter().zip(joint_of) {
        let flow = match (link, outcomes.get_mut(*joint as usize)) {
            (Some(link), Some(outcome)) => share(*link, outcome, steep),
            _ => 0,
        };
        flows.push(i64::from(flow))?;
    }
    Ok(flows)
}

/// Takes from each joint's flow what its links carry at least.
fn take_least(links: &[Option<Link>], joint_of: &[u32], outcomes: &mut [Outcome], steep: u32) {
    for (link, joint) in links.iter().zip(joint_of) {
        if let Some(link) = link {
            if let Some(outcome) = outcomes.get_mut(*joint as usize) {
                let departure = departure(*link, *outcome);
                let least = least_flow(departure, link.weight, steep);
                outcome.flow = outcome.flow.wrapping_sub(least);
            }
        }
    }
}

/// What a link carries: the least that it can, and of what is left of its joint's flow as much as it can.
fn share(link: Link, outcome: &mut Outcome, steep: u32) -> i32 {
    let departure = departure(link, *outcome);
    let least = least_flow(departure, link.weight, steep);
    let most = least_flow(departure.wrapping_neg(), link.weight, steep).wrapping_neg();
    let more = outcome.flow.min(most.wrapping_sub(least)).max(0);
    outcome.flow = outcome.flow.wrapping_sub(more);
    least.wrapping_add(more)
}

/// By how many whole cycles the surface departs at a link with the offsets of its regions.
fn departure(link: Link, outcome: Outcome) -> i64 {
    i64::from(link.departure).wrapping_add(i64::from(outcome.rise))
}

/// The least that a link with a departure can carry to its second region: what one cycle less costs less.
fn least_flow(departure: i64, weight: u16, steep: u32) -> i32 {
    let weight = i32::from(weight);
    let steep = weight.wrapping_mul(steep.cast_signed());
    match departure {
        2.. => steep,
        1 => weight,
        0 => weight.wrapping_neg(),
        _ => steep.wrapping_neg(),
    }
}
