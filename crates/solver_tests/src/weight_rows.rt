ghost use Rattle.std.specs.Prelude.{◌≡◌, ◌≤◌};

use crate::outcomes::{holds, same};
use edge_weights::WeightRule;
use raster_model::{EdgeWeights, Plane, RuleKind, Tiling};
use std::alloc::Global;
use std::process::Abort;
use worked_scenes::plane;

/// The weights of edges by the rule least.
fn least(rt: &impl Abort, alloc: Global, maxval: u16, weights: &Plane) -> EdgeWeights
    requires { weights.now.maxval ≡ maxval }
{
    let number = Box::new(alloc, |a: u16, b: u16| a.min(b)).expect(rt, "memory");
    let rule = WeightRule::new(RuleKind::Least, maxval, number);
    rule.weigh(alloc, weights).expect(rt, "memory")
}

/// The same by the rule mean.
fn mean(rt: &impl Abort, alloc: Global, weights: &Plane) -> EdgeWeights
    requires { weights.now.maxval ≡ 9 }
{
    let number = Box::new(alloc, |a: u16, b: u16| {
        ((u32::from(a) + u32::from(b)) / 2) as u16
    });
    let rule = WeightRule::new(RuleKind::Mean, 9, number.expect(rt, "memory"));
    rule.weigh(alloc, weights).expect(rt, "memory")
}

/// The same by the rule product.
fn product(rt: &impl Abort, alloc: Global, weights: &Plane) -> EdgeWeights
    requires { weights.now.maxval ≡ 9 }
{
    let number = Box::new(
        alloc,
        |a: u16, b: u16| -> u16
            requires { (a ≤ 9) × (b ≤ 9) }
        { (u32::from(a) * u32::from(b) / 9) as u16 },
    );
    let rule = WeightRule::new(RuleKind::Product, 9, number.expect(rt, "memory"));
    rule.weigh(alloc, weights).expect(rt, "memory")
}

/// The same by a rule.
fn weighed(rt: &impl Abort, alloc: Global, rule: RuleKind, weights: &Plane) -> EdgeWeights
    requires { weights.now.maxval ≡ 9 }
{
    match rule {
        RuleKind::Least => least(rt, alloc, 9, weights),
        RuleKind::Mean => mean(rt, alloc, weights),
        RuleKind::Product => product(rt, alloc, weights),
    }
}

/// The weights of right edges and of down edges, in words.
fn told(rt: &impl Abort, alloc: Global, edges: &EdgeWeights) -> String {
    format!(in alloc; "{:?} {:?}", edges.right, edges.down).expect(rt, "memory")
}

/// The weights `5 5 / 3 9` with the maxval 9 by each rule, by hand.
const RULES: &str = "\
Least [5, 3] [3, 5]
Mean [5, 6] [4, 7]
Product [2, 3] [1, 5]";

#[test]
fn weighs_a_square_by_each_rule(rt: HostRuntime) {
    let alloc = rt.alloc();
    let weights = plane(alloc, &Tiling::new(2, 2, 2), 9, &[5, 5, 3, 9]).expect(&rt, "a plane");
    for (rule, row) in [RuleKind::Least, RuleKind::Mean, RuleKind::Product]
        .iter()
        .zip(RULES.lines())
    {
        let found = told(&rt, alloc, &weighed(&rt, alloc, *rule, &weights));
        holds(&rt, row, row.ends_with(found.as_str()));
    }
}

/// A line has no down edges.
#[test]
fn a_line_has_no_down_edges(rt: HostRuntime) {
    let alloc = rt.alloc();
    let line = plane(alloc, &Tiling::new(3, 1, 2), 300, &[300, 256, 299]).expect(&rt, "a plane");
    let edges = told(&rt, alloc, &least(&rt, alloc, 300, &line));
    same(&rt, "a line", &edges, "[256, 256] []");
}
