ghost use Rattle.offset_network.specs.Lanes.{arcs_of as arcs_of_lane, lane_start};
ghost use Rattle.std.specs.Prelude.{◌≡◌, ◌≤◌, ◌+ℤ◌, ◌-ℤ◌, pos};

use raster_model::MAX_FURTHER_COST;

/// A part of the flow on a seam edge with open ends: it lies from `-low` to `high`, and where the surface departs, from
/// the wrapped difference moved by the lane's cycles, it lies at an end of that range.
#[derive(Clone, Copy)]
pub(crate) struct Lane {
    /// The region of the edge's first pixel.
    pub(crate) from: u32,
    /// The region of the other.
    pub(crate) to: u32,
    /// How much can flow from the other to the first.
    pub(crate) low: u32,
    /// How much can flow from the first to the other.
    pub(crate) high: u32,
    /// By how many whole cycles the surface of the tiles' results departs there.
    pub(crate) departure: i64,
}

/// The flow of a lane at the start, from its first region to the other. It is 0 if the surface does not depart there, and
/// otherwise the end of its range on the departure's side.
pub(crate) fn start_flow(lane: Lane) -> i64
    ensures { result ≡ lane_start lane }
{
    if lane.departure > 0 {
        i64::from(lane.high)
    } else if lane.departure < 0 {
        -i64::from(lane.low)
    } else {
        0
    }
}

/// The residual capacity of a lane's arc at the start.
pub(crate) fn forward(lane: Lane) -> u64
    requires { (lane.low ≤ MAX_FURTHER_COST) × (lane.high ≤ MAX_FURTHER_COST) }
    ensures { pos result ≡ (pos lane.high -ℤ lane_start lane) }
{
    (i64::from(lane.high) - start_flow(lane)) as u64
}

/// The residual capacity of the arc's twin at the start.
pub(crate) fn back(lane: Lane) -> u64
    requires { (lane.low ≤ MAX_FURTHER_COST) × (lane.high ≤ MAX_FURTHER_COST) }
    ensures { pos result ≡ (pos lane.low +ℤ lane_start lane) }
{
    (i64::from(lane.low) + start_flow(lane)) as u64
}

/// How many arcs a lane has: one and its twin, and none where there is no lane.
pub(crate) fn arcs_of(lane: Option<Lane>) -> u32
    ensures { result ≡ arcs_of_lane lane }
{
    if lane.is_some() { 2 } else { 0 }
}
