ghost use Rattle.flow_network.specs.Growing.{total_amount};
ghost use Rattle.flow_network.specs.Views.{shape_of, state_of};
ghost use Rattle.offset_network.specs.Lanes.{AreLanes, IsLaneIn};
ghost use Rattle.offset_network.specs.Networks.{AddsAt, AreSupplies, IsJoined, IsSolved, IsStarted, IsSupplied};
ghost use Rattle.std.specs.Prelude.{◌≡◌, ℕ, ◌+◌, ◌<◌, ◌≤◌, ◌^◌, ◌≤ℤ◌, IfOk, OnOk, length, pos, slice_index_or, unsigned_abs};

use crate::lane::{Lane, back, forward, start_flow};
use flow_network::Network;
use raster_model::MAX_FURTHER_COST;
use shortest_augment::{BalanceFault, balance};
use std::alloc::{AllocError, Global};

/// Adds an amount to the number at a place.
fn add_to(numbers: &mut Vec<i64>, place: usize, amount: i64)
    requires place { place < length numbers.old.items }
    requires small { (v : ℕ) → unsigned_abs (slice_index_or numbers.old.items v (pos 0)) ≤ 2 ^ 61 }
    requires amount { unsigned_abs amount ≤ MAX_FURTHER_COST }
    ensures added { AddsAt numbers.old.items numbers.new.items place amount }
    ensures small { (m : ℕ) → ((v : ℕ) → unsigned_abs (slice_index_or numbers.old.items v (pos 0)) ≤ m) → (v : ℕ) → unsigned_abs (slice_index_or numbers.new.items v (pos 0)) ≤ m + MAX_FURTHER_COST }
{
    numbers[place] += amount;
}

/// Counts the flow of a lane at the start, in the supplies of the regions that it joins.
fn supply(supplies: &mut Vec<i64>, lane: Option<Lane>)
    requires fits { IsLaneIn (length supplies.old.items) lane }
    requires small { (v : ℕ) → unsigned_abs (slice_index_or supplies.old.items v (pos 0)) ≤ 2 ^ 60 }
    ensures { IsSupplied supplies.old.items supplies.new.items lane }
{
    if let Some(lane) = lane {
        let flow = start_flow(lane);
        add_to(supplies, lane.to as usize, flow);
        add_to(supplies, lane.from as usize, -flow);
    }
}

/// What the flows at the start bring to each region.
fn supplies(alloc: Global, regions: u32, lanes: &[Option<Lane>]) -> Result<Vec<i64>, AllocError>
    requires { AreLanes regions lanes.now }
    ensures { IfOk result (λ supplies. AreSupplies regions lanes.now (length lanes.now) supplies.items) }
{
    let mut supplies = vec![in alloc; 0; regions as usize]?;
    for lane in lanes {
        supply(&mut supplies, *lane);
    }
    Ok(supplies)
}

/// Adds the arc of a lane and its twin.
fn join(alloc: Global, net: &mut Network, lane: Option<Lane>) -> Result<(), AllocError>
    requires fits { IsLaneIn (shape_of net.old).nodes lane }
    requires count { (shape_of net.old).arcs + 2 < 2 ^ 32 }
    requires flat { (v : ℕ) → v < (shape_of net.old).nodes → (state_of net.old).potential v ≡ pos 0 }
    requires room { total_amount (shape_of net.old) (state_of net.old) ≤ℤ pos (2 ^ 61) }
    ensures { OnOk result (IsJoined (shape_of net.old) (shape_of net.new) (state_of net.old) (state_of net.new) lane) }
{
    if let Some(lane) = lane {
        let cost = -lane.departure;
        let forward = forward(lane);
        let back = back(lane);
        net.add_arc(alloc, lane.from, lane.to, cost, forward, back)?;
    }
    Ok(())
}

/// The network of the lanes: a node for each region, and an arc and its twin for each lane.
///
/// The residual capacities of both sum to what the lane can take both ways. If it departs, one of them has all of it, so
/// that the flow starts at an end of its range; the supplies count that flow. (Chen and Zebker 2002.)
fn network(alloc: Global, regions: u32, lanes: &[Option<Lane>]) -> Result<Network, AllocError>
    requires { AreLanes regions lanes.now }
    ensures { IfOk result (λ net. IsStarted regions lanes.now (length lanes.now) (shape_of net) (state_of net)) }
{
    let mut net = Network::new(alloc, supplies(alloc, regions, lanes)?)?;
    for lane in lanes {
        join(alloc, &mut net, *lane)?;
    }
    Ok(net)
}

/// The network of the lanes, balanced so that no node has excess. No nodes block it: each lane that leaves such nodes
/// carries all that it can.
pub(crate) fn solved(
    alloc: Global,
    regions: u32,
    lanes: &[Option<Lane>],
) -> Result<Network, AllocError>
    requires { AreLanes regions lanes.now }
    ensures { IfOk result (λ net. IsSolved regions lanes.now (shape_of net) (state_of net)) }
{
    let mut net = network(alloc, regions, lanes)?;
    match balance(alloc, &mut net) {
        Ok(()) => Ok(net),
        Err(BalanceFault::Memory) => Err(AllocError),
        Err(BalanceFault::Blocked(_)) => unreachable!(),
    }
}
