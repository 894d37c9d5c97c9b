ghost use Rattle.dual_grid.specs.Building.{IsPlaceBelow};
ghost use Rattle.dual_grid.specs.Grids.{along as along_of, amount_of, carried as carried_by, cost_of_place, is_split as is_split_at, is_taken, leads_forth as leads_forth_of, plain_residual, residual_at as residual_of, split_residual, twin_place as twin_of};
ghost use Rattle.std.specs.Prelude.{◌+◌, ◌*◌, ◌≡◌, ◌<◌, ◌≤◌, ◌+ℤ◌, ◌-ℤ◌, if◌then◌else◌, IsTrue, pos, unsigned_abs};

use raster_model::MAX_NETWORK_NODES;

/// Whether there are steep arcs across an edge of this weight: then the other arcs there have the capacity 1.
pub(crate) fn is_split(steep: u32, weight: u32) -> bool
    ensures { result ≡ is_split_at steep weight }
{
    0 < weight && 1 < steep
}

/// Whether the arc in a place across an edge leads from the first side to the other.
pub(crate) fn leads_forth(place: u32) -> bool
    ensures { result ≡ leads_forth_of place }
{
    place % 4 == 0 || place % 4 == 3
}

/// The place of the twin of the arc in a place across an edge of this weight.
pub(crate) fn twin_place(steep: u32, weight: u32, place: u32) -> u32
    requires below { place < 8 }
    requires taken { IsTrue (is_taken steep weight place) }
    ensures value { result ≡ twin_of weight place }
    ensures below { result < 8 }
{
    if weight == 0 {
        2 - place
    } else if place % 2 == 0 {
        place + 1
    } else {
        place - 1
    }
}

/// What the arc in a place costs across an edge of this weight, or minus what it costs if it is a twin.
pub(crate) fn size_of_cost(steep: u32, weight: u32, place: u32) -> u64
    ensures { result ≡ cost_of_place steep weight place }
{
    if place < 4 {
        u64::from(weight)
    } else {
        u64::from(steep) * u64::from(weight)
    }
}

/// A flow from the first side of an edge to the other, seen in the direction of the arc in a place.
fn along(flow: i32, place: u32) -> i32
    requires { unsigned_abs flow ≤ MAX_NETWORK_NODES + 1 }
    ensures value { result ≡ along_of flow place }
    ensures within { unsigned_abs result ≤ MAX_NETWORK_NODES + 1 }
{
    if leads_forth(place) { flow } else { -flow }
}

/// The number, or 0 if it is below 0.
fn amount(number: i32) -> u32
    ensures { result ≡ amount_of number }
{
    number.max(0) as u32
}

/// What of a flow an arc from side to side has carried, of which the place is that or its twin's.
fn carried(flow: i32, place: u32) -> u32
    requires { unsigned_abs flow ≤ MAX_NETWORK_NODES + 1 }
    ensures { result ≡ carried_by flow place }
{
    let forth = place % 4 < 2;
    amount(if forth { flow } else { -flow })
}

/// The residual capacity that so many units leave in a place where there are no steep arcs. `most` is what an arc can carry.
fn plain_left(most: u32, units: u32, place: u32) -> u32
    ensures { result ≡ plain_residual most units place }
{
    if place % 2 == 0 {
        most.saturating_sub(units)
    } else {
        units
    }
}

/// The residual capacity that so many units leave in a place where there are steep arcs, which carry what is more than
/// 1 unit. `most` is what a steep arc can carry.
fn split_left(most: u32, units: u32, place: u32) -> u32
    ensures { result ≡ split_residual most units place }
{
    let steep = units.saturating_sub(1);
    if place < 4 {
        if place % 2 == 0 {
            1u32.saturating_sub(units)
        } else {
            units.min(1)
        }
    } else if place % 2 == 0 {
        most.saturating_sub(steep)
    } else {
        steep
    }
}

/// The residual capacity of the arc in a place across an edge of this weight, with this flow across the edge. `most` is
/// what an arc can carry that has no other beside it, or that is steep.
pub(crate) fn residual_at(most: u32, steep: u32, weight: u32, flow: i32, place: u32) -> u64
    requires most { most ≤ MAX_NETWORK_NODES }
    requires flow { unsigned_abs flow ≤ MAX_NETWORK_NODES + 1 }
    ensures { result ≡ residual_of most steep weight flow place }
{
    if weight == 0 {
        return u64::from(amount(most as i32 - along(flow, place)));
    }
    let units = carried(flow, place);
    if 1 < steep {
        u64::from(split_left(most, units, place))
    } else {
        u64::from(plain_left(most, units, place))
    }
}

/// The flow from the first side of an edge to the other, after an amount went along the arc in a place.
pub(crate) fn flow_after(flow: i32, place: u32, amount: u64) -> i32
    requires flow { unsigned_abs flow ≤ MAX_NETWORK_NODES + 1 }
    requires amount { amount ≤ 2 * MAX_NETWORK_NODES + 1 }
    ensures { result ≡ (if leads_forth_of place then flow +ℤ pos amount else flow -ℤ pos amount) }
{
    if leads_forth(place) {
        flow + amount as i32
    } else {
        flow - amount as i32
    }
}

/// The greatest place below `high`, across an edge of this weight, of an arc that starts at a node. `at_first` says
/// that the node lies on the first side of the edge, `at_other` that it lies on the other.
pub(crate) fn place_below(
    steep: u32,
    weight: u32,
    at_first: bool,
    at_other: bool,
    high: u32,
) -> Option<u32>
    requires { high ≤ 8 }
    ensures { IsPlaceBelow steep weight at_first at_other high result }
{
    let split = is_split(steep, weight);
    if 7 < high && at_first && split {
        Some(7)
    } else if 6 < high && at_other && split {
        Some(6)
    } else if 5 < high && at_other && split {
        Some(5)
    } else if 4 < high && at_first && split {
        Some(4)
    } else if 3 < high && at_first && weight > 0 {
        Some(3)
    } else if 2 < high && at_other {
        Some(2)
    } else if 1 < high && at_other && weight > 0 {
        Some(1)
    } else if 0 < high && at_first {
        Some(0)
    } else {
        None
    }
}
