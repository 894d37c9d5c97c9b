ghost use Rattle.offset_network.specs.Lanes.{AreLanes, AreLanesOf, lane_of, weight_of as weight_of_link, with_lanes};
ghost use Rattle.offset_network.specs.Links.{AreLinks};
ghost use Rattle.offset_network.specs.Rooms.{room_of_lanes};
ghost use Rattle.raster_model.specs.Limits.{IsSteepness};
ghost use Rattle.std.specs.Prelude.{◌≡◌, ◌≤◌, [], IfOk, OnOk, Some, length, unsigned_abs, vec_capacity};

use crate::lane::Lane;
use offset_guess::Link;
use raster_model::{MAX_FURTHER_COST, MAX_SEAM_DEPARTURE, MAX_WEIGHT};
use std::alloc::{AllocError, Global};

/// The weight of a link, and 0 where there is none.
fn weight_of(link: Option<Link>) -> u32
    ensures value { result ≡ weight_of_link link }
{
    match link {
        Some(link) => u32::from(link.weight),
        None => 0,
    }
}

/// The lane of a link on which `low` can flow back and `high` can flow on, for the link's departure less so many cycles.
/// There is none if nothing can flow.
fn lane(link: Option<Link>, low: u32, high: u32, less: i64) -> Option<Lane>
    requires departure { (k : Link) → link ≡ Some k → unsigned_abs k.departure ≤ MAX_SEAM_DEPARTURE }
    requires range { (low ≤ MAX_FURTHER_COST) × (high ≤ MAX_FURTHER_COST) }
    requires less { unsigned_abs less ≤ 1 }
    ensures { result ≡ lane_of link low high less }
{
    let link = link?;
    if low + high == 0 {
        return None;
    }
    Some(Lane {
        from: link.from,
        to: link.to,
        low,
        high,
        departure: i64::from(link.departure) - less,
    })
}

/// Appends the three lanes of a link at a steepness. The first takes up to the weight, either way; the others take what
/// more can flow if the surface departs by more than a cycle upwards, or downwards.
fn push_lanes(
    link: Option<Link>,
    steep: u32,
    lanes: &mut Vec<Option<Lane>>,
) -> Result<(), AllocError>
    requires small { (k : Link) → link ≡ Some k → (k.weight ≤ MAX_WEIGHT) × (unsigned_abs k.departure ≤ MAX_SEAM_DEPARTURE) }
    requires steepness { IsSteepness steep }
    ensures { OnOk result (lanes.new.items ≡ with_lanes steep link lanes.old.items) }
{
    let weight = weight_of(link);
    let more = (steep - 1) * weight;
    lanes.push(lane(link, weight, weight, 0))?;
    lanes.push(lane(link, 0, more, 1))?;
    lanes.push(lane(link, more, 0, -1))?;
    Ok(())
}

/// An empty list with room for the lanes of the links.
fn list_for_lanes(
    alloc: Global,
    links: &[Option<Link>],
    regions: u32,
) -> Result<Vec<Option<Lane>>, AllocError>
    requires links { AreLinks regions links.now }
    ensures { IfOk result (λ lanes. (lanes.items ≡ []) × (vec_capacity lanes ≡ room_of_lanes (length links.now))) }
{
    Vec::with_capacity(alloc, links.len() * 3)
}

/// The lanes of the links at a steepness, three for each, in their order.
pub(crate) fn lanes(
    alloc: Global,
    links: &[Option<Link>],
    steep: u32,
    regions: u32,
) -> Result<Vec<Option<Lane>>, AllocError>
    requires links { AreLinks regions links.now }
    requires steepness { IsSteepness steep }
    ensures lanes { IfOk result (λ lanes. AreLanesOf steep links.now (length links.now) lanes.items) }
    ensures fit { IfOk result (λ lanes. AreLanes regions lanes.items) }
{
    let mut lanes = list_for_lanes(alloc, links, regions)?;
    for link in links {
        push_lanes(*link, steep, &mut lanes)?;
    }
    Ok(lanes)
}
