ghost use Rattle.flow_network.specs.Views.{shape_of, state_of};
ghost use Rattle.offset_network.specs.Lanes.{AreLanes, arcs_before, arcs_of as arcs_of_lane, lane_at};
ghost use Rattle.offset_network.specs.Networks.{AreFlows, AreLowered, AreSums, HasArcs, IsArcOf, flow_left, raised_height};
ghost use Rattle.offset_network.specs.Starts.{AreStartOffsets};
ghost use Rattle.certificates.specs.TileSets.{solved_cycles};
ghost use Rattle.raster_model.specs.Masks.{open_at};
ghost use Rattle.raster_model.specs.Scene.{raster_of};
ghost use Rattle.raster_model.specs.Seams.{IsOpenPixel, IsFirstOpen};
ghost use Rattle.seam_regions.specs.Regions.{AreRegionsOf, region_label};
ghost use Rattle.shortest_augment.specs.Balance.{LiesWithin};
ghost use Rattle.std.specs.Prelude.{◌≡◌, ℕ, ◌+◌, ◌*◌, ◌<◌, ◌≤◌, ◌+ℤ◌, ◌≤ℤ◌, IfNone, IfOk, IfSome, Some, length, neg_ℤ, pos, slice_index_or, unsigned_abs};

use crate::lane::{Lane, arcs_of};
use crate::start::MAX_START;
use crate::surface::TileSurface;
use flow_network::{FlowNet, Network};
use raster_model::{
    MAX_FURTHER_COST, MAX_OFFSET, MAX_REGIONS, MAX_SEAM_DEPARTURE, MAX_TILE_CYCLES, first_open,
};
use seam_regions::Regions;
use std::alloc::{AllocError, Global};

/// The flow on a lane, from its first region to the other. `arc` is the number of the lane's arc.
fn flow(net: &Network, lane: Option<Lane>, arc: u32) -> i64
    requires arc { (k : Lane) → lane ≡ Some k → IsArcOf (shape_of net.now) (state_of net.now) arc k }
    requires range { (k : Lane) → lane ≡ Some k → (k.low ≤ MAX_FURTHER_COST) × (k.high ≤ MAX_FURTHER_COST) }
    ensures value { result ≡ flow_left lane ((state_of net.now).residual arc) }
    ensures small { unsigned_abs result ≤ MAX_FURTHER_COST }
{
    match lane {
        None => 0,
        Some(lane) => i64::from(lane.high) - net.residual(arc) as i64,
    }
}

/// The flows of the lanes, in their order.
pub(crate) fn flows(
    alloc: Global,
    net: &Network,
    lanes: &[Option<Lane>],
) -> Result<Vec<i64>, AllocError>
    requires lanes { AreLanes (shape_of net.now).nodes lanes.now }
    requires arcs { HasArcs (shape_of net.now).nodes lanes.now (length lanes.now) (shape_of net.now) (state_of net.now) }
    ensures flows { IfOk result (λ flows. AreFlows lanes.now (state_of net.now) (length lanes.now) flows.items) }
    ensures small { IfOk result (λ flows. (j : ℕ) → unsigned_abs (slice_index_or flows.items j (pos 0)) ≤ MAX_FURTHER_COST) }
{
    let mut flows = Vec::with_capacity(alloc, lanes.len())?;
    let mut arc = 0;
    for lane in lanes {
        flows.push(flow(net, *lane, arc))?;
        arc += arcs_of(*lane);
    }
    Ok(flows)
}

/// The sums of three numbers each: from those of the lanes those of the links, of which there are so many.
pub(crate) fn sums_of_three(
    alloc: Global,
    parts: &[i64],
    links: usize,
) -> Result<Vec<i64>, AllocError>
    requires count { length parts.now ≡ 3 * links }
    requires small { (j : ℕ) → unsigned_abs (slice_index_or parts.now j (pos 0)) ≤ MAX_FURTHER_COST }
    ensures { IfOk result (λ sums. AreSums parts.now links sums.items) }
{
    let mut sums = Vec::with_capacity(alloc, links)?;
    for place in 0..links {
        let first = 3 * place;
        sums.push(parts[first] + parts[first + 1] + parts[first + 2])?;
    }
    Ok(sums)
}

/// How high a region lies, in whole cycles: its offset at the start plus the potential of its node.
fn height(net: &Network, start: &[i64], region: u32) -> i64
    requires region { region < (shape_of net.now).nodes }
    requires heights { LiesWithin (shape_of net.now) (state_of net.now) (MAX_SEAM_DEPARTURE + 1) }
    requires few { (shape_of net.now).nodes ≤ MAX_REGIONS }
    requires start { AreStartOffsets (shape_of net.now).nodes start.now }
    ensures value { result ≡ raised_height start.now (state_of net.now) region }
    ensures low { neg_ℤ (pos MAX_START) ≤ℤ result }
    ensures high { result ≤ℤ pos ((shape_of net.now).nodes * (MAX_SEAM_DEPARTURE + 1) + MAX_START) }
{
    start[region as usize] + net.potential(region)
}

/// How high the first open pixel lies, in whole cycles above the phase: the height of its region plus its cycles. It is 0 if
/// no pixel is open.
pub(crate) fn anchor(surface: &TileSurface, regions: &Regions, net: &Network, start: &[i64]) -> i64
    requires regions { AreRegionsOf surface.now.scene.now.tiling surface.now.mask.now regions.now }
    requires nodes { (shape_of net.now).nodes ≡ regions.now.count }
    requires heights { LiesWithin (shape_of net.now) (state_of net.now) (MAX_SEAM_DEPARTURE + 1) }
    requires start { AreStartOffsets regions.now.count start.now }
    ensures value { (x y : ℕ) → IsFirstOpen (raster_of surface.now.scene.now) (open_at surface.now.mask.now) x y → result ≡ (raised_height start.now (state_of net.now) (region_label regions.now x y) +ℤ solved_cycles surface.now.scene.now surface.now.tiles.now.results x y) }
    ensures low { neg_ℤ (pos (MAX_START + MAX_TILE_CYCLES)) ≤ℤ result }
    ensures high { result ≤ℤ pos (regions.now.count * (MAX_SEAM_DEPARTURE + 1) + MAX_START + MAX_TILE_CYCLES) }
{
    let Some((x, y)) = first_open(surface.scene, surface.mask) else {
        return 0;
    };
    let Some(region) = regions.region(x, y) else {
        return 0;
    };
    height(net, start, region) + i64::from(surface.at(x, y))
}

/// The heights of all regions, each lowered by a number.
pub(crate) fn lowered(
    alloc: Global,
    net: &Network,
    start: &[i64],
    by: i64,
) -> Result<Vec<i64>, AllocError>
    requires heights { LiesWithin (shape_of net.now) (state_of net.now) (MAX_SEAM_DEPARTURE + 1) }
    requires few { (shape_of net.now).nodes ≤ MAX_REGIONS }
    requires start { AreStartOffsets (shape_of net.now).nodes start.now }
    requires small { unsigned_abs by ≤ 2 * MAX_OFFSET }
    ensures { IfOk result (λ offsets. AreLowered start.now (state_of net.now) by (shape_of net.now).nodes offsets.items) }
{
    let mut offsets = Vec::with_capacity(alloc, net.nodes() as usize)?;
    for region in 0..net.nodes() {
        offsets.push(height(net, start, region) - by)?;
    }
    Ok(offsets)
}
