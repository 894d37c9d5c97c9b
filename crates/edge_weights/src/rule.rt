ghost use Rattle.raster_model.specs.Weights.{AreRuleWeights, rule_number};
ghost use Rattle.std.specs.Prelude.{◌≡◌, ◌≤◌, ℕ, IfOk};

use crate::numbers::{EndRule, weigh_by};
use raster_model::{EdgeWeights, Plane, RuleKind};
use std::alloc::{AllocError, Global};

/// A closure from the weights at the two ends of an edge to the weight of the edge.
pub type EndWeights = Box<dyn Fn(u16, u16) -> u16>;

/// A rule for the weights of edges: a closure, with the fact that for all weights up to a maxval it may be called and
/// answers the number of a kind of rule.
#[derive(Drop)]
pub struct WeightRule {
    kind: RuleKind,
    maxval: u16,
    by_ends: EndWeights,
    ghost called: { (a b : ℕ) → a ≤ maxval → b ≤ maxval → EndWeights.pre by_ends a b },
    ghost answered: { (a b n : ℕ) → a ≤ maxval → b ≤ maxval → EndWeights.post by_ends a b n → n ≡ rule_number kind maxval a b },
}

impl WeightRule {
    /// The rule of a kind over weights up to `maxval`, with the closure that answers its numbers.
    pub fn new(kind: RuleKind, maxval: u16, by_ends: EndWeights) -> WeightRule
        requires called { (a b : ℕ) → a ≤ maxval → b ≤ maxval → EndWeights.pre by_ends a b }
        requires answered { (a b n : ℕ) → a ≤ maxval → b ≤ maxval → EndWeights.post by_ends a b n → n ≡ rule_number kind maxval a b }
        ensures kind { result.kind ≡ kind }
        ensures maxval { result.maxval ≡ maxval }
    {
        WeightRule {
            kind,
            maxval,
            by_ends,
        }
    }

    /// The weights of all edges of a raster before any mask, by the rule over the pixels' weights. The weight plane has
    /// the rule's maxval. It fails only for lack of memory.
    pub fn weigh(&self, alloc: Global, weights: &Plane) -> Result<EdgeWeights, AllocError>
        requires { weights.now.maxval ≡ self.now.maxval }
        ensures { IfOk result (λ edges. AreRuleWeights self.now.kind weights.now edges) }
    {
        weigh_by(alloc, self, weights)
    }
}

impl EndRule for WeightRule {
    ghost kind = { λ rule. rule.kind };

    ghost maxval = { λ rule. rule.maxval };

    fn number(&self, a: u16, b: u16) -> u16 {
        (self.by_ends)(a, b)
    }
}
