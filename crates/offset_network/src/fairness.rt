ghost use Rattle.certificates.specs.Growth.{AreWithinWeights, AreZeros, HasGrown};
ghost use Rattle.offset_network.specs.FairFlows.{AreFairBefore, AreFairFlows, IsFairFlow, brought_before, brought_by, flow_on};
ghost use Rattle.offset_network.specs.Links.{AreLinks, IsLink, IsLinkIn};
ghost use Rattle.offset_network.specs.Starts.{moved_departure as departure_moved};
ghost use Rattle.seam_regions.specs.Offsets.{AreNear};
ghost use Rattle.std.specs.Prelude.{◌≡◌, ℕ, ◌+◌, ◌*◌, ◌<◌, ◌≤◌, ◌^◌, ◌==◌, IfOk, IsTrue, length, pos, unsigned_abs};
ghost use Rattle.sums_and_lists.specs.Sums.{where_true};

use offset_guess::Link;
use raster_model::{MAX_CYCLE_COST, MAX_OFFSET, MAX_SEAM_DEPARTURE, Terms};
use std::alloc::{AllocError, Global};

/// By how many whole cycles the surface departs at a link with an offset more on each region.
fn departure(link: Link, offsets: &[i64]) -> i64
    requires fits { IsLink (length offsets.now) link }
    requires near { AreNear offsets.now }
    ensures value { result ≡ departure_moved offsets.now link }
    ensures small { unsigned_abs result ≤ 2 * MAX_OFFSET + MAX_SEAM_DEPARTURE }
{
    let rise = offsets[link.to as usize] - offsets[link.from as usize];
    i64::from(link.departure) + rise
}

/// Whether the flow on a link is no greater than it can be, and bounds the cost there by the cost itself. Where there is no
/// link, nothing may flow.
fn is_fair(terms: Terms, offsets: &[i64], link: Option<Link>, flow: i64) -> bool
    requires fits { IsLinkIn (length offsets.now) link }
    requires near { AreNear offsets.now }
    ensures { IsTrue result → IsFairFlow terms.steep offsets.now link flow }
{
    let Some(link) = link else {
        return flow == 0;
    };
    let size = flow.unsigned_abs();
    if size > u64::from(terms.limit(link.weight)) {
        return false;
    }
    let departure = departure(link, offsets);
    let over = size.saturating_sub(u64::from(link.weight));
    let bound = i128::from(flow) * i128::from(departure) - i128::from(over);
    bound == i128::from(link.weight) * i128::from(terms.steps(departure))
}

/// Whether the flows on the links are, each by itself. There are as many.
fn are_fair(terms: Terms, offsets: &[i64], links: &[Option<Link>], flows: &[i64]) -> bool
    requires links { AreLinks (length offsets.now) links.now }
    requires near { AreNear offsets.now }
    requires count { length flows.now ≡ length links.now }
    ensures { IsTrue result → AreFairBefore terms.steep offsets.now links.now flows.now (length links.now) }
{
    for place in 0..links.len() {
        if !is_fair(terms, offsets, links[place], flows[place]) {
            return false;
        }
    }
    true
}

/// Adds an amount to the number at a place.
fn add_to(numbers: &mut [i64], place: usize, amount: i64)
    requires place { place < length numbers.old }
    requires small { AreWithinWeights (2 ^ 31) numbers.old }
    requires amount { unsigned_abs amount ≤ MAX_CYCLE_COST }
    ensures grown { HasGrown numbers.old numbers.new (λ v. where_true (place == v) amount) }
    ensures within { (n : ℕ) → AreWithinWeights n numbers.old → AreWithinWeights (n + 1) numbers.new }
{
    numbers[place] += amount;
}

/// Moves the flow on a link from the sum of its first region to that of the other.
fn move_flow(sums: &mut [i64], link: Option<Link>, flow: i64)
    requires fits { IsLinkIn (length sums.old) link }
    requires flow { unsigned_abs flow ≤ MAX_CYCLE_COST }
    requires small { AreWithinWeights (2 ^ 30) sums.old }
    ensures grown { HasGrown sums.old sums.new (brought_by link flow) }
    ensures within { (n : ℕ) → AreWithinWeights n sums.old → AreWithinWeights (n + 2) sums.new }
{
    if flow == 0 {
        return;
    }
    if let Some(link) = link {
        add_to(sums, link.to as usize, flow);
        add_to(sums, link.from as usize, -flow);
    }
}

/// Moves the flows on all links, from sums that are 0.
fn move_flows(sums: &mut [i64], links: &[Option<Link>], flows: &[i64])
    requires links { AreLinks (length sums.old) links.now }
    requires count { length flows.now ≡ length links.now }
    requires flows { (j : ℕ) → unsigned_abs (flow_on flows.now j) ≤ MAX_CYCLE_COST }
    requires zeros { AreWithinWeights 0 sums.old }
    ensures { HasGrown sums.old sums.new (brought_before links.now flows.now (length links.now)) }
{
    for place in 0..links.len() {
        move_flow(sums, links[place], flows[place]);
    }
}

/// Whether all numbers are 0.
fn are_zeros(numbers: &[i64]) -> bool
    ensures { IsTrue result → AreZeros numbers.now }
{
    numbers.iter().all(|&number| number == 0)
}

/// Whether as much flows into each region as out of it, by sums that are 0 before.
fn are_balanced(sums: &mut [i64], links: &[Option<Link>], flows: &[i64]) -> bool
    requires links { AreLinks (length sums.old) links.now }
    requires count { length flows.now ≡ length links.now }
    requires flows { (j : ℕ) → unsigned_abs (flow_on flows.now j) ≤ MAX_CYCLE_COST }
    requires zeros { AreWithinWeights 0 sums.old }
    ensures { IsTrue result → (v : ℕ) → v < length sums.old → brought_before links.now flows.now (length links.now) v ≡ pos 0 }
{
    move_flows(sums, links, flows);
    are_zeros(sums)
}

/// Whether there is a flow for each link, each is fair, and as much flows into each region as out of it.
pub(crate) fn are_fair_flows(
    alloc: Global,
    terms: Terms,
    offsets: &[i64],
    links: &[Option<Link>],
    flows: &[i64],
) -> Result<bool, AllocError>
    requires links { AreLinks (length offsets.now) links.now }
    requires near { AreNear offsets.now }
    ensures { IfOk result (λ good. IsTrue good → AreFairFlows terms.steep (length offsets.now) offsets.now links.now flows.now) }
{
    if flows.len() != links.len() || !are_fair(terms, offsets, links, flows) {
        return Ok(false);
    }
    let mut sums = vec![in alloc; 0; offsets.len()]?;
    Ok(are_balanced(&mut sums, links, flows))
}
