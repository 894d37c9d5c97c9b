ghost use Rattle.edge_weights.specs.Pairs.{AreNumbered};
ghost use Rattle.raster_model.specs.Plain.{AreDownWeights, AreRightWeights};
ghost use Rattle.raster_model.specs.declared.weights.RuleKind.{RuleKind};
ghost use Rattle.raster_model.specs.Weights.{AreRuleWeights, rule_number};
ghost use Rattle.std.specs.Prelude.{◌≡◌, ◌+◌, ◌-◌, ◌*◌, ◌≤◌, ◌<◌, ℕ, IfOk, length, slice_index};

use raster_model::{EdgeWeights, Plane, RuleKind};
use std::alloc::{AllocError, Global};

/// A rule that makes the weight of an edge from the weights at its ends.
pub(crate) trait EndRule {
    /// The kind whose numbers the rule answers.
    ghost kind: { Self → RuleKind };

    /// The greatest weight that a pixel may have.
    ghost maxval: { Self → ℕ };

    /// The weight of an edge whose ends have the weights `a` and `b`.
    fn number(&self, a: u16, b: u16) -> u16
        requires { (a ≤ maxval self.now) × (b ≤ maxval self.now) }
        ensures { result ≡ rule_number (kind self.now) (maxval self.now) a b };
}

/// The weights of all edges of a raster before any mask, by a rule over the pixels' weights.
pub(crate) fn weigh_by<R: EndRule>(
    alloc: Global,
    rule: &R,
    weights: &Plane,
) -> Result<EdgeWeights, AllocError>
    requires { weights.now.maxval ≡ R.maxval rule.now }
    ensures { IfOk result (λ edges. AreRuleWeights (R.kind rule.now) weights.now edges) }
{
    Ok(EdgeWeights {
        right: right(alloc, rule, weights)?,
        down: down(alloc, rule, weights)?,
    })
}

/// The weights of the right edges, in row order of first pixels.
pub(crate) fn right<R: EndRule>(
    alloc: Global,
    rule: &R,
    weights: &Plane,
) -> Result<Vec<u16>, AllocError>
    requires { weights.now.maxval ≡ R.maxval rule.now }
    ensures { IfOk result (λ list. AreRightWeights (R.kind rule.now) weights.now ((weights.now.width - 1) * weights.now.height) list.items) }
{
    let width = weights.width as usize;
    let across = width - 1;
    let samples: &[u16] = &weights.samples;
    let mut list = vec![in alloc; 0; across * weights.height as usize]?;
    for y in 0..weights.height as usize {
        let first = y * width;
        let firsts = &samples[first..first + across];
        let others = &samples[first + 1..first + width];
        set_numbers(rule, firsts, others, &mut list, y * across);
    }
    Ok(list)
}

/// The weights of the down edges, in row order of first pixels.
pub(crate) fn down<R: EndRule>(
    alloc: Global,
    rule: &R,
    weights: &Plane,
) -> Result<Vec<u16>, AllocError>
    requires { weights.now.maxval ≡ R.maxval rule.now }
    ensures { IfOk result (λ list. AreDownWeights (R.kind rule.now) weights.now (weights.now.width * (weights.now.height - 1)) list.items) }
{
    let width = weights.width as usize;
    let edges = width * (weights.height as usize - 1);
    let samples: &[u16] = &weights.samples;
    let mut list = vec![in alloc; 0; edges]?;
    let firsts = &samples[0..edges];
    let others = &samples[width..width + edges];
    set_numbers(rule, firsts, others, &mut list, 0);
    Ok(list)
}

/// Sets the numbers of a list from `start` on: one for each pair of weights at the same place of two slices.
fn set_numbers<R: EndRule>(rule: &R, firsts: &[u16], others: &[u16], list: &mut [u16], start: usize)
    requires counts { length others.now ≡ length firsts.now }
    requires room { start + length firsts.now ≤ length list.old }
    requires below { (k : ℕ) → k < length firsts.now → (slice_index firsts.now k ≤ R.maxval rule.now) × (slice_index others.now k ≤ R.maxval rule.now) }
    ensures { AreNumbered (rule_number (R.kind rule.now) (R.maxval rule.now)) firsts.now others.now start (length firsts.now) list.old list.new }
{
    for place in 0..firsts.len() {
        list[start + place] = rule.number(firsts[place], others[place]);
    }
}
