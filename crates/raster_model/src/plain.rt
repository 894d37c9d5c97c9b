//! Plain and slow: each function's contract is a definition. Faster bodies are tested against them.

ghost use Rattle.raster_model.specs.Heights.{KnowsEnds, KnowsOpen, KnowsOpenOf};
ghost use Rattle.raster_model.specs.Masks.{open_at};
ghost use Rattle.raster_model.specs.Plain.{AreDownWeights, AreRightWeights, KnowsPart, in_part, part_cost, part_cost_from, part_edge_cost};
ghost use Rattle.raster_model.specs.Raster.{
  edge_cost as edge_cost_of,
  gradient as gradient_of,
  is_inner as is_inner_of,
  is_seam as is_seam_of,
  lifted,
  residue as residue_of,
  seam_cost as seam_cost_of,
  tile_cost as tile_cost_of,
};
ghost use Rattle.raster_model.specs.Scene.{raster_of};
ghost use Rattle.raster_model.specs.Sums.{is_edge};
ghost use Rattle.raster_model.specs.Terms.{slope_of};
ghost use Rattle.raster_model.specs.Tiles.{tiles_of};
ghost use Rattle.raster_model.specs.Weights.{AreRuleWeights, edge_weight as edge_weight_of};
ghost use Rattle.std.specs.Prelude.{
  ◌≡◌,
  ◌+◌,
  ◌-◌,
  ◌*◌,
  ◌<◌,
  ◌≤◌,
  ◌^◌,
  ◌+ℤ◌,
  ◌-ℤ◌,
  ◌≤ℤ◌,
  IfOk,
  IsTrue,
  pos,
  unsigned_abs,
};

use crate::edge::Edge;
use crate::heights::Heights;
use crate::limits::{MAX_CYCLE_COST, MAX_DEPARTURE};
use crate::mask::Mask;
use crate::measures::{departure, weight};
use crate::plane::Plane;
use crate::scene::Scene;
use crate::weights::{EdgeWeights, RuleKind};
use std::alloc::{AllocError, Global};

/// The weight of an edge before any mask: the number of a rule over a weight plane.
pub fn edge_weight(rule: RuleKind, weights: &Plane, edge: Edge) -> u16
    requires { IsTrue (is_edge weights.now.width weights.now.height edge) }
    ensures { result ≡ edge_weight_of rule weights.now edge }
{
    let a = weights.sample(edge.x, edge.y);
    let b = weights.sample(edge.end_x(), edge.end_y());
    match rule {
        RuleKind::Least => a.min(b),
        RuleKind::Mean => ((u32::from(a) + u32::from(b)) / 2) as u16,
        RuleKind::Product => (u32::from(a) * u32::from(b) / u32::from(weights.maxval)) as u16,
    }
}

/// The weights of all edges before any mask.
pub fn weigh(alloc: Global, rule: RuleKind, weights: &Plane) -> Result<EdgeWeights, AllocError>
    ensures { IfOk result (λ edges. AreRuleWeights rule weights.now edges) }
{
    Ok(EdgeWeights {
        right: right_weights(alloc, rule, weights)?,
        down: down_weights(alloc, rule, weights)?,
    })
}

fn right_weights(alloc: Global, rule: RuleKind, weights: &Plane) -> Result<Vec<u16>, AllocError>
    ensures { IfOk result (λ list. AreRightWeights rule weights.now ((weights.now.width - 1) * weights.now.height) list.items) }
{
    let across = weights.width - 1;
    let mut list = Vec::new(alloc);
    for place in 0..across * weights.height {
        let edge = Edge {
            x: place % across,
            y: place / across,
            down: false,
        };
        list.push(edge_weight(rule, weights, edge))?;
    }
    Ok(list)
}

fn down_weights(alloc: Global, rule: RuleKind, weights: &Plane) -> Result<Vec<u16>, AllocError>
    ensures { IfOk result (λ list. AreDownWeights rule weights.now (weights.now.width * (weights.now.height - 1)) list.items) }
{
    let across = weights.width;
    let mut list = Vec::new(alloc);
    for place in 0..across * (weights.height - 1) {
        let edge = Edge {
            x: place % across,
            y: place / across,
            down: true,
        };
        list.push(edge_weight(rule, weights, edge))?;
    }
    Ok(list)
}

/// The wrapped difference of an edge around its slope, from its first pixel to the other.
pub fn gradient(scene: &Scene, edge: Edge) -> i32
    requires { IsTrue (is_edge scene.now.phase.width scene.now.phase.height edge) }
    ensures value { result ≡ gradient_of (raster_of scene.now) edge }
    ensures low { (slope_of scene.now.terms edge.down -ℤ pos 32768) ≤ℤ result }
    ensures high { result ≤ℤ (slope_of scene.now.terms edge.down +ℤ pos 32767) }
{
    scene.sheet().gradient(edge)
}

/// The residue of the cell with the upper left corner (`x`, `y`), in cycles: -1, 0 or 1. It is the sum of
/// the wrapped differences along the cell's top and right sides, minus those along its bottom and left sides.
/// (Goldstein, Zebker and Werner 1988.)
pub fn residue(scene: &Scene, x: u32, y: u32) -> i32
    requires across { x + 1 < scene.now.phase.width }
    requires along { y + 1 < scene.now.phase.height }
    ensures value { result ≡ residue_of (raster_of scene.now) x y }
    ensures small { unsigned_abs result ≤ 1 }
{
    scene.sheet().residue(x, y)
}

/// Whether both ends of an edge lie in a tile.
pub fn is_inner(scene: &Scene, tile: u32, edge: Edge) -> bool
    requires { IsTrue (is_edge scene.now.phase.width scene.now.phase.height edge) }
    ensures { result ≡ is_inner_of (raster_of scene.now) tile edge }
{
    scene.tiling.tile_of(edge.x, edge.y) == tile
        && scene.tiling.tile_of(edge.end_x(), edge.end_y()) == tile
}

/// Whether the ends of an edge lie in two tiles.
pub fn is_seam(scene: &Scene, edge: Edge) -> bool
    requires { IsTrue (is_edge scene.now.phase.width scene.now.phase.height edge) }
    ensures { result ≡ is_seam_of (raster_of scene.now) edge }
{
    scene.tiling.tile_of(edge.x, edge.y) != scene.tiling.tile_of(edge.end_x(), edge.end_y())
}

/// What an edge adds to a cost: its weight times the steps of its departure, and 0 if an end is masked. At the steepness 1
/// the steps are the absolute departure.
pub fn edge_cost<H: Heights>(scene: &Scene, mask: &Mask, heights: &H, edge: Edge) -> u128
    requires same_size { (mask.now.width ≡ scene.now.phase.width) × (mask.now.height ≡ scene.now.phase.height) }
    requires is_edge { IsTrue (is_edge scene.now.phase.width scene.now.phase.height edge) }
    requires known { KnowsEnds (open_at mask.now) (H.knows heights.now) edge }
    ensures value { pos result ≡ edge_cost_of (raster_of scene.now) (open_at mask.now) (lifted (raster_of scene.now) (H.cycles_at heights.now)) edge }
    ensures small { result ≤ MAX_CYCLE_COST * MAX_DEPARTURE }
{
    if mask.is_open(edge.x, edge.y) && mask.is_open(edge.end_x(), edge.end_y()) {
        let steps = scene.terms.steps(departure(scene, heights, edge));
        u128::from(weight(scene, mask, edge)) * u128::from(steps)
    } else {
        0
    }
}

/// The cost of a tile: the sum over its inner edges with open ends. (Costantini 1998.)
pub fn tile_cost<H: Heights>(scene: &Scene, mask: &Mask, heights: &H, tile: u32) -> u128
    requires same_size { (mask.now.width ≡ scene.now.phase.width) × (mask.now.height ≡ scene.now.phase.height) }
    requires known { KnowsOpenOf (raster_of scene.now) (open_at mask.now) tile (H.knows heights.now) }
    ensures { pos result ≡ tile_cost_of (raster_of scene.now) (open_at mask.now) tile (lifted (raster_of scene.now) (H.cycles_at heights.now)) }
{
    cost_of(scene, mask, heights, Part::Tile(tile))
}

/// The cost of the seams: the sum over the edges from tile to tile with open ends. (Chen and Zebker 2002.)
pub fn seam_cost<H: Heights>(scene: &Scene, mask: &Mask, heights: &H) -> u128
    requires same_size { (mask.now.width ≡ scene.now.phase.width) × (mask.now.height ≡ scene.now.phase.height) }
    requires known { KnowsOpen (raster_of scene.now) (open_at mask.now) (H.knows heights.now) }
    ensures { pos result ≡ seam_cost_of (raster_of scene.now) (open_at mask.now) (lifted (raster_of scene.now) (H.cycles_at heights.now)) }
{
    cost_of(scene, mask, heights, Part::Seams)
}

/// The edges whose costs are summed.
#[derive(Clone, Copy)]
enum Part {
    /// The inner edges of a tile.
    Tile(u32),
    /// The edges from tile to tile.
    Seams,
}

fn is_in_part(scene: &Scene, part: Part, edge: Edge) -> bool
    requires { IsTrue (is_edge scene.now.phase.width scene.now.phase.height edge) }
    ensures { result ≡ in_part (raster_of scene.now) part edge }
{
    match part {
        Part::Tile(tile) => is_inner(scene, tile, edge),
        Part::Seams => is_seam(scene, edge),
    }
}

fn edge_cost_in<H: Heights>(scene: &Scene, mask: &Mask, heights: &H, part: Part, edge: Edge) -> u128
    requires same_size { (mask.now.width ≡ scene.now.phase.width) × (mask.now.height ≡ scene.now.phase.height) }
    requires is_edge { IsTrue (is_edge scene.now.phase.width scene.now.phase.height edge) }
    requires known { KnowsPart (raster_of scene.now) (open_at mask.now) part (H.knows heights.now) }
    ensures value { pos result ≡ part_edge_cost (raster_of scene.now) (open_at mask.now) part (lifted (raster_of scene.now) (H.cycles_at heights.now)) edge }
    ensures small { result ≤ MAX_CYCLE_COST * MAX_DEPARTURE }
{
    if is_in_part(scene, part, edge) {
        edge_cost(scene, mask, heights, edge)
    } else {
        0
    }
}

fn cost_from<H: Heights>(
    scene: &Scene,
    mask: &Mask,
    heights: &H,
    part: Part,
    x: u32,
    y: u32,
) -> u128
    requires same_size { (mask.now.width ≡ scene.now.phase.width) × (mask.now.height ≡ scene.now.phase.height) }
    requires pixel { (x < scene.now.phase.width) × (y < scene.now.phase.height) }
    requires known { KnowsPart (raster_of scene.now) (open_at mask.now) part (H.knows heights.now) }
    ensures value { pos result ≡ part_cost_from (raster_of scene.now) (open_at mask.now) part (lifted (raster_of scene.now) (H.cycles_at heights.now)) x y }
    ensures small { result ≤ 2 * MAX_CYCLE_COST * MAX_DEPARTURE }
{
    let to_right = if x + 1 < scene.phase.width {
        edge_cost_in(scene, mask, heights, part, Edge { x, y, down: false })
    } else {
        0
    };
    let to_lower = if y + 1 < scene.phase.height {
        edge_cost_in(scene, mask, heights, part, Edge { x, y, down: true })
    } else {
        0
    };
    to_right + to_lower
}

fn cost_of<H: Heights>(scene: &Scene, mask: &Mask, heights: &H, part: Part) -> u128
    requires same_size { (mask.now.width ≡ scene.now.phase.width) × (mask.now.height ≡ scene.now.phase.height) }
    requires known { KnowsPart (raster_of scene.now) (open_at mask.now) part (H.knows heights.now) }
    ensures { pos result ≡ part_cost (raster_of scene.now) (open_at mask.now) part (lifted (raster_of scene.now) (H.cycles_at heights.now)) }
{
    let mut cost: u128 = 0;
    for y in 0..scene.phase.height {
        for x in 0..scene.phase.width {
            cost += cost_from(scene, mask, heights, part, x, y);
        }
    }
    cost
}
