ghost use Rattle.raster_model.specs.Plain.{AreDownWeights, AreRightWeights};
ghost use Rattle.raster_model.specs.Weights.{AreRuleWeights, rule_number};
ghost use Rattle.raster_model.specs.declared.weights.RuleKind.TheVariants.{Least as LeastKind, Mean as MeanKind, Product as ProductKind};
ghost use Rattle.std.specs.Prelude.{◌-◌, ◌*◌, ◌≤◌, IfOk};

use crate::numbers::{EndRule, down, right};
use raster_model::{EdgeWeights, Plane, RuleKind};
use std::alloc::{AllocError, Global};
use std::thread::{Threads, join_mut};

/// The weights of all edges of a raster before any mask, by the rule of a kind over the pixels' weights, which may be
/// coherences. The weights of the right edges and of the down edges come in row order of first pixels. It fails only
/// for lack of memory. (Chen and Zebker 2002.)
pub fn weigh(alloc: Global, rule: RuleKind, weights: &Plane) -> Result<EdgeWeights, AllocError>
    ensures { IfOk result (λ edges. AreRuleWeights rule weights.now edges) }
{
    Ok(EdgeWeights {
        right: weigh_right(alloc, rule, weights)?,
        down: weigh_down(alloc, rule, weights)?,
    })
}

/// The same. A new thread weighs the right edges while the caller's weighs the down edges.
pub fn weigh_side_by_side<R: Threads>(
    rt: &R,
    alloc: Global,
    rule: RuleKind,
    weights: &Plane,
) -> Result<EdgeWeights, AllocError>
    ensures { IfOk result (λ edges. AreRuleWeights rule weights.now edges) }
{
    let (right, down) = both(rt, alloc, rule, weights);
    Ok(EdgeWeights {
        right: right?,
        down: down?,
    })
}

/// The weights of the right edges, and those of the down edges.
fn both<R: Threads>(
    rt: &R,
    alloc: Global,
    rule: RuleKind,
    weights: &Plane,
) -> (Result<Vec<u16>, AllocError>, Result<Vec<u16>, AllocError>)
    ensures right { IfOk result.0 (λ list. AreRightWeights rule weights.now ((weights.now.width - 1) * weights.now.height) list.items) }
    ensures down { IfOk result.1 (λ list. AreDownWeights rule weights.now (weights.now.width * (weights.now.height - 1)) list.items) }
{
    join_mut(
        rt,
        &mut || -> Result<Vec<u16>, AllocError>
            ensures { IfOk result (λ list. AreRightWeights rule weights.entry.now ((weights.entry.now.width - 1) * weights.entry.now.height) list.items) }
        { weigh_right(alloc, rule, weights) },
        &mut || -> Result<Vec<u16>, AllocError>
            ensures { IfOk result (λ list. AreDownWeights rule weights.entry.now (weights.entry.now.width * (weights.entry.now.height - 1)) list.items) }
        { weigh_down(alloc, rule, weights) },
    )
}

/// The weights of the right edges, in row order of first pixels.
fn weigh_right(alloc: Global, rule: RuleKind, weights: &Plane) -> Result<Vec<u16>, AllocError>
    ensures { IfOk result (λ list. AreRightWeights rule weights.now ((weights.now.width - 1) * weights.now.height) list.items) }
{
    let maxval = weights.maxval;
    match rule {
        RuleKind::Least => right(alloc, &ByLeast { maxval }, weights),
        RuleKind::Mean => right(alloc, &ByMean { maxval }, weights),
        RuleKind::Product => right(alloc, &ByProduct { maxval }, weights),
    }
}

/// The weights of the down edges, in row order of first pixels.
fn weigh_down(alloc: Global, rule: RuleKind, weights: &Plane) -> Result<Vec<u16>, AllocError>
    ensures { IfOk result (λ list. AreDownWeights rule weights.now (weights.now.width * (weights.now.height - 1)) list.items) }
{
    let maxval = weights.maxval;
    match rule {
        RuleKind::Least => down(alloc, &ByLeast { maxval }, weights),
        RuleKind::Mean => down(alloc, &ByMean { maxval }, weights),
        RuleKind::Product => down(alloc, &ByProduct { maxval }, weights),
    }
}

/// The lesser of the weights at an edge's ends.
#[derive(Drop)]
struct ByLeast {
    maxval: u16,
}

/// Half the sum of the weights at an edge's ends, rounded down.
#[derive(Drop)]
struct ByMean {
    maxval: u16,
}

/// The product of the weights at an edge's ends divided by the maxval, rounded down.
#[derive(Drop)]
struct ByProduct {
    maxval: u16,
    ghost valued: { 1 ≤ maxval },
}

impl EndRule for ByLeast {
    ghost kind = { λ rule. LeastKind };

    ghost maxval = { λ rule. rule.maxval };

    fn number(&self, a: u16, b: u16) -> u16 {
        a.min(b)
    }
}

impl EndRule for ByMean {
    ghost kind = { λ rule. MeanKind };

    ghost maxval = { λ rule. rule.maxval };

    fn number(&self, a: u16, b: u16) -> u16 {
        ((u32::from(a) + u32::from(b)) / 2) as u16
    }
}

impl EndRule for ByProduct {
    ghost kind = { λ rule. ProductKind };

    ghost maxval = { λ rule. rule.maxval };

    fn number(&self, a: u16, b: u16) -> u16 {
        (u32::from(a) * u32::from(b) / u32::from(self.maxval)) as u16
    }
}
