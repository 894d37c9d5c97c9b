ghost use Rattle.std.specs.Prelude.{◌≡◌, ◌<◌, ◌≤◌, ◌+◌, ◌-◌, ◌*◌, ◌/◌, ◌%◌, ◌^◌, ◌==◌, ℕ, ℤ, pos, ◌+ℤ◌, ◌-ℤ◌, ◌≤ℤ◌, length, get_or, unsigned_abs, List, None};
ghost use Rattle.flow_network.specs.Nets.{Shape, State, IsArc, IsNetwork, HasReducedCosts, IsNextBelow, reduced_cost, tail_of};
ghost use Rattle.flow_network.specs.Moves.{IsPushed, IsRaised};
ghost use Rattle.flow_network.specs.Lists.{other as other_of, shape_in, state_in, FitTogether, AreLinked, HasRoom};

use crate::limits::{MAX_AMOUNT, MAX_ARC_COST};
use crate::net::FlowNet;
use crate::slices::{add_each, carry, no_arcs, push_reserved, shift};
use std::alloc::{AllocError, Global};

/// A flow network whose arcs are kept in lists, in the order in which `add_arc` added them. Conforms to `FlowNet`.
///
/// Arcs 2k and 2k + 1 are twins: the first is what the k-th call of `add_arc` named, from its tail to its head.
#[derive(Drop)]
pub struct Network {
    /// By arc.
    heads: Vec<u32>,
    residuals: Vec<u64>,
    next: Vec<Option<u32>>,
    /// By pair of twins: the cost of the first.
    costs: Vec<i64>,
    /// By node.
    first: Vec<Option<u32>>,
    excesses: Vec<i64>,
    potentials: Vec<i64>,
    ghost fit: { FitTogether heads.items residuals.items next.items costs.items first.items excesses.items potentials.items },
    ghost is_network: { IsNetwork (shape_in (length excesses.items) heads.items costs.items) },
    ghost linked: { AreLinked (shape_in (length excesses.items) heads.items costs.items) first.items next.items },
    ghost room: { HasRoom (shape_in (length excesses.items) heads.items costs.items) (state_in residuals.items excesses.items potentials.items) },
    ghost has_reduced_costs: { HasReducedCosts (shape_in (length excesses.items) heads.items costs.items) (state_in residuals.items excesses.items potentials.items) },
    ghost counted: { (length excesses.items < 2 ^ 32) × (length heads.items < 2 ^ 32) },
}

/// The number of an arc's twin.
fn other(arc: u32) -> u32
    requires { arc + 1 < 2 ^ 32 }
    ensures { result ≡ other_of arc }
{
    if arc % 2 == 0 { arc + 1 } else { arc - 1 }
}

impl FlowNet for Network {
    ghost shape = { λ x. shape_in (length x.excesses.items) x.heads.items x.costs.items };

    ghost state = { λ x. state_in x.residuals.items x.excesses.items x.potentials.items };

    ghost same_origin = { λ x y. Unit {0} };

    ghost is_network = { λ x. x.is_network };

    ghost has_reduced_costs = { λ x. x.has_reduced_costs };

    ghost origin_stays = { λ x. tt };

    ghost origin_follows = { λ x y z h k. tt };

    fn nodes(&self) -> u32 {
        self.excesses.len() as u32
    }

    fn first_out(&self, node: u32) -> Option<u32> {
        self.first[node as usize]
    }

    fn next_out(&self, arc: u32) -> Option<u32> {
        self.next[arc as usize]
    }

    fn tail(&self, arc: u32) -> u32 {
        self.heads[other(arc) as usize]
    }

    fn head(&self, arc: u32) -> u32 {
        self.heads[arc as usize]
    }

    fn twin(&self, arc: u32) -> u32 {
        other(arc)
    }

    fn cost(&self, arc: u32) -> i64 {
        let cost = self.costs[arc as usize / 2];
        if arc % 2 == 0 { cost } else { -cost }
    }

    fn residual(&self, arc: u32) -> u64 {
        self.residuals[arc as usize]
    }

    fn excess(&self, node: u32) -> i64 {
        self.excesses[node as usize]
    }

    fn potential(&self, node: u32) -> i64 {
        self.potentials[node as usize]
    }

    fn push(&mut self, arc: u32, amount: u64) {
        let head = self.head(arc) as usize;
        let tail = self.tail(arc) as usize;
        shift(
            &mut self.residuals,
            arc as usize,
            other(arc) as usize,
            amount,
        );
        carry(&mut self.excesses, tail, head, amount);
    }

    fn raise(&mut self, amounts: &[i64]) {
        add_each(&mut self.potentials, amounts);
    }
}

impl Network {
    ghost use Rattle.std.specs.Prelude.{◌≡◌, ◌<◌, ◌≤◌, ◌+◌, ◌^◌, ℕ, pos, ◌+ℤ◌, ◌≤ℤ◌, ◌<ℤ◌, length, get_or, unsigned_abs, IfOk, OnOk, OnErr};
    ghost use Rattle.flow_network.specs.Growing.{supply_sum, supply_sizes, total_amount, AddsArc};
    ghost use Rattle.flow_network.specs.Views.{shape_of, state_of};

    /// A network with a node for each supply and without arcs. The supplies are the first excesses.
    pub fn new(alloc: Global, supplies: Vec<i64>) -> Result<Network, AllocError>
        requires count { length supplies.items < 2 ^ 32 }
        requires even { supply_sum supplies.items ≡ pos 0 }
        requires room { supply_sizes supplies.items ≤ℤ pos MAX_AMOUNT }
        ensures nodes { IfOk result (λ net. (shape_of net).nodes ≡ length supplies.items) }
        ensures arcs { IfOk result (λ net. (shape_of net).arcs ≡ 0) }
        ensures excess { IfOk result (λ net. (v : ℕ) → v < length supplies.items → (state_of net).excess v ≡ get_or supplies.items v (pos 0)) }
        ensures potential { IfOk result (λ net. (v : ℕ) → v < length supplies.items → (state_of net).potential v ≡ pos 0) }
    {
        let first = no_arcs(alloc, supplies.len())?;
        let potentials = vec![in alloc; 0; supplies.len()]?;
        Ok(Network {
            heads: Vec::new(alloc),
            residuals: Vec::new(alloc),
            next: Vec::new(alloc),
            costs: Vec::new(alloc),
            first,
            excesses: supplies,
            potentials,
        })
    }

    /// Adds an arc of capacity `forward` and its twin of capacity `back`, and names the arc.
    ///
    /// It is called before any `raise`, while every potential is 0. Lack of memory leaves the network as it was.
    pub fn add_arc(
        &mut self,
        _alloc: Global,
        tail: u32,
        head: u32,
        cost: i64,
        forward: u64,
        back: u64,
    ) -> Result<u32, AllocError>
        requires tail { tail < (shape_of self.old).nodes }
        requires head { head < (shape_of self.old).nodes }
        requires count { (shape_of self.old).arcs + 2 < 2 ^ 32 }
        requires cost { unsigned_abs cost ≤ MAX_ARC_COST }

        // Where an arc has capacity, its cost is at least 0.
        requires no_forward { cost <ℤ pos 0 → forward ≡ 0 }
        requires no_back { pos 0 <ℤ cost → back ≡ 0 }
        requires flat { (v : ℕ) → v < (shape_of self.old).nodes → (state_of self.old).potential v ≡ pos 0 }

        // For excesses and all capacities together.
        requires room { (total_amount (shape_of self.old) (state_of self.old) +ℤ pos forward +ℤ pos back) ≤ℤ pos MAX_AMOUNT }
        ensures arc { IfOk result (λ arc. arc ≡ (shape_of self.old).arcs) }
        ensures added { OnOk result (AddsArc (shape_of self.old) (shape_of self.new) (state_of self.old) (state_of self.new) tail head cost forward back) }
        ensures unchanged { OnErr result ((shape_of self.new ≡ shape_of self.old) × (state_of self.new ≡ state_of self.old)) }
    {
        self.heads.reserve(2)?;
        self.residuals.reserve(2)?;
        self.next.reserve(2)?;
        self.costs.reserve(1)?;
        let arc = self.heads.len() as u32;
        push_reserved(&mut self.heads, head);
        push_reserved(&mut self.heads, tail);
        push_reserved(&mut self.residuals, forward);
        push_reserved(&mut self.residuals, back);
        push_reserved(&mut self.costs, cost);
        let after_tail = self.first[tail as usize];
        push_reserved(&mut self.next, after_tail);
        self.first[tail as usize] = Some(arc);
        let after_head = self.first[head as usize];
        push_reserved(&mut self.next, after_head);
        self.first[head as usize] = Some(arc + 1);
        Ok(arc)
    }
}
