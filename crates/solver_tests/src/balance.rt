ghost use Rattle.std.specs.Prelude.{◌≡◌, ◌<◌, ◌≤◌, ◌+◌, ◌-◌, ◌*◌, ◌^◌, ℕ, pos, ◌≤ℤ◌, length, IfOk, IfSome};
ghost use Rattle.flow_network.specs.Growing.{supply_sum, supply_sizes};
ghost use Rattle.flow_network.specs.Views.{shape_of, state_of};
ghost use Rattle.shortest_augment.specs.Balance.{BoundsCosts, HasZeroPotentials};

use crate::outcomes::holds;
use flow_network::{FlowNet, Network};
use shortest_augment::{BalanceFault, balance};
use std::alloc::{AllocError, Global};
use std::process::Abort;
use worked_scenes::numbers;

/// What excesses and capacities may come to in all.
const ROOM: u64 = 1 << 62;

/// The least cost of each network, the number of its nodes, their supplies, and tail, head, cost and capacity of each arc.
/// The costs of the first four are those of `network_simplex` of networkx 3.6.1; the others were found by hand.
const ROWS: &str = "\
8 2  2 -2  0 1 3 1  0 1 5 5
31 5  -1 -3 2 4 -2  1 3 7 6  2 3 4 3  3 4 2 1  3 1 7 3  1 0 7 3  4 2 1 3  4 0 4 3  4 2 7 3  2 4 2 5  0 3 4 3  2 3 4 5  2 4 4 6  2 3 5 2  3 2 5 5
58 6  -2 4 -2 -1 1 0  3 2 2 4  1 4 18 5  5 3 9 5  4 2 0 2  1 4 14 5  5 1 7 2  5 0 15 2  1 0 4 1  2 1 15 2  4 0 13 4  2 3 19 1  4 1 7 3  0 2 12 3  3 0 17 3  0 4 19 3  0 2 17 5  2 4 9 3  1 3 13 5
19 9  1 0 -1 0 -1 0 1 0 0  0 1 9 9  1 0 9 9  0 3 3 9  3 0 3 9  1 2 1 9  2 1 1 9  1 4 9 9  4 1 9 9  2 5 6 9  5 2 6 9  3 4 5 9  4 3 5 9  3 6 4 9  6 3 4 9  4 5 2 9  5 4 2 9  4 7 7 9  7 4 7 9  5 8 5 9  8 5 5 9  6 7 4 9  7 6 4 9  7 8 1 9  8 7 1 9
0 1  0
0 1  0  0 0 5 9
7 2  1 -1  0 0 0 9  1 1 2 9  0 1 7 1
5497558138880 2  5 -5  0 1 1099511627776 5
3298534883328 3  1 1 -2  0 1 1099511627776 9  1 2 1099511627776 9
1152921504606846976 2  1152921504606846976 -1152921504606846976  0 1 1 1152921504606846976
5 3  3 0 -3  0 1 0 3  1 2 1 2  1 2 3 2";

/// What few supplies that sum to 0 come to by size, or None if they are others.
fn sizes(supplies: &[i64]) -> Option<u64>
    ensures few { IfSome result (λ size. length supplies.now < 1000) }
    ensures even { IfSome result (λ size. supply_sum supplies.now ≡ pos 0) }
    ensures small { IfSome result (λ size. supply_sizes supplies.now ≤ℤ pos size) }
    ensures room { IfSome result (λ size. size ≤ 2 ^ 62) }
{
    if supplies.len() >= 1000 {
        return None;
    }
    let mut total: i64 = 0;
    let mut size: u64 = 0;
    for supply in supplies {
        if supply.unsigned_abs() > ROOM - size {
            return None;
        }
        size += supply.unsigned_abs();
        total += *supply;
    }
    if total == 0 { Some(size) } else { None }
}

/// An arc of a row.
#[derive(Clone, Copy)]
struct Arc {
    tail: u32,
    head: u32,
    cost: i64,
    capacity: u64,
}

/// The arc of these numbers, if its ends are nodes and its cost and its capacity are within bounds.
fn arc_of(ends: (i64, i64), cost: i64, capacity: i64, nodes: u32, used: u64) -> Option<Arc>
    requires { used ≤ 2 ^ 62 }
    ensures tail { IfSome result (λ arc. arc.tail < nodes) }
    ensures head { IfSome result (λ arc. arc.head < nodes) }
    ensures low { IfSome result (λ arc. pos 0 ≤ℤ arc.cost) }
    ensures high { IfSome result (λ arc. arc.cost ≤ℤ pos (2 ^ 40)) }
    ensures room { IfSome result (λ arc. arc.capacity ≤ 2 ^ 62 - used) }
{
    let Ok(tail) = u32::try_from(ends.0) else {
        return None;
    };
    let Ok(head) = u32::try_from(ends.1) else {
        return None;
    };
    let Ok(capacity) = u64::try_from(capacity) else {
        return None;
    };
    if tail >= nodes || head >= nodes || capacity > ROOM - used {
        return None;
    }
    if cost < 0 || cost > 1_099_511_627_776 {
        return None;
    }
    Some(Arc {
        tail,
        head,
        cost,
        capacity,
    })
}

/// The network of these supplies and arcs, each by tail, head, cost and capacity; None if there is none.
fn build(alloc: Global, supplies: &[i64], arcs: &[i64]) -> Result<Option<Network>, AllocError>
    ensures flat { IfOk result (λ made. IfSome made (λ net. HasZeroPotentials (shape_of net) (state_of net))) }
    ensures bounded { IfOk result (λ made. IfSome made (λ net. BoundsCosts (shape_of net) (2 ^ 40))) }
{
    let Some(size) = sizes(supplies) else {
        return Ok(None);
    };
    if arcs.len() > 10_000_000 {
        return Ok(None);
    }
    let mut net = Network::new(alloc, supplies.to_vec(alloc)?)?;
    let mut used = size;
    for index in 0..arcs.len() / 4 {
        let at = 4 * index;
        let ends = (arcs[at], arcs[at + 1]);
        let Some(arc) = arc_of(ends, arcs[at + 2], arcs[at + 3], net.nodes(), used) else {
            return Ok(None);
        };
        net.add_arc(alloc, arc.tail, arc.head, arc.cost, arc.capacity, 0)?;
        used += arc.capacity;
    }
    Ok(Some(net))
}

/// The cost of all that flows, if twins have no capacity of their own: what flows along an arc is on its twin.
fn flow_cost<N: FlowNet>(net: &N) -> u64 {
    let mut total: u64 = 0;
    for node in 0..net.nodes() {
        total = total.wrapping_add(cost_out(net, node));
    }
    total
}

fn cost_out<N: FlowNet>(net: &N, node: u32) -> u64
    requires { node < (N.shape net.now).nodes }
{
    let mut total: u64 = 0;
    let mut next = net.first_out(node);
    while let Some(arc) = next {
        if net.cost(arc) > 0 {
            let flow = net.residual(net.twin(arc));
            total = total.wrapping_add(flow.wrapping_mul(net.cost(arc).unsigned_abs()));
        }
        next = net.next_out(arc);
    }
    total
}

/// The network of these supplies and arcs, balanced.
fn balanced(rt: &impl Abort, alloc: Global, supplies: &[i64], arcs: &[i64]) -> Network {
    let built = build(alloc, supplies, arcs).expect(rt, "memory");
    let mut net = built.expect(rt, "a network");
    let balanced = balance(alloc, &mut net);
    assert!(rt; balanced.is_ok());
    net
}

/// The cost of the balanced network of a row, minus the cost that the row names.
fn cost_beyond(rt: &impl Abort, alloc: Global, row: &str) -> u64 {
    let row = numbers(alloc, row).expect(rt, "memory");
    assert!(rt; row.len() >= 2);
    let nodes = usize::try_from(row[1]).expect(rt, "a number of nodes");
    assert!(rt; nodes <= row.len() - 2);
    let net = balanced(rt, alloc, &row[2..nodes + 2], &row[nodes + 2..]);
    flow_cost(&net).wrapping_sub(row[0].unsigned_abs())
}

#[test]
fn reaches_the_least_costs(rt: HostRuntime) {
    for row in ROWS.lines() {
        holds(&rt, row, cost_beyond(&rt, rt.alloc(), row) == 0);
    }
}

/// One unit goes over each of two arcs, and the dearer one sets the potentials.
#[test]
fn fills_the_cheaper_arc_first(rt: HostRuntime) {
    let net = balanced(&rt, rt.alloc(), &[2, -2], &[0, 1, 3, 1, 0, 1, 5, 5]);
    assert!(rt; net.nodes() == 2);
    assert!(rt; net.potential(1).wrapping_sub(net.potential(0)) == 5 && flow_cost(&net) == 8);
}

/// Supplies of as much as a network can hold, and no arc.
#[test]
fn names_the_node_that_no_arc_leaves(rt: HostRuntime) {
    let most = 1 << 61;
    let built = build(rt.alloc(), &[most, -most], &[]).expect(&rt, "memory");
    let mut net = built.expect(&rt, "a network");
    match balance(rt.alloc(), &mut net) {
        Err(BalanceFault::Blocked(names)) => assert!(rt; names.as_slice() == [0].as_slice()),
        _ => assert!(rt; false),
    }
}

/// `count` arcs from one node to another, each of cost 1 and capacity 1.
fn parallel(rt: &impl Abort, alloc: Global, count: usize) -> Vec<i64> {
    [0, 1, 1, 1].repeat(alloc, count).expect(rt, "memory")
}

#[test]
fn fills_a_million_arcs(rt: HostRuntime) {
    let arcs = parallel(&rt, rt.alloc(), 1_000_000);
    let net = balanced(&rt, rt.alloc(), &[1_000_000, -1_000_000], &arcs);
    assert!(rt; flow_cost(&net) == 1_000_000);
}
