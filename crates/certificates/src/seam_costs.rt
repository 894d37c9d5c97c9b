ghost use Rattle.sums_and_lists.specs.Sums.{where_true};
ghost use Rattle.raster_model.specs.Heights.{KnowsOpen};
ghost use Rattle.raster_model.specs.Masks.{open_at};
ghost use Rattle.raster_model.specs.Raster.{lifted, seam_cost as seam_cost_of, seam_cost_from, seam_edge_cost};
ghost use Rattle.raster_model.specs.Scene.{raster_of};
ghost use Rattle.raster_model.specs.Sums.{is_edge, sum_row};
ghost use Rattle.std.specs.Prelude.{◌≡◌, ◌+◌, ◌*◌, ◌<◌, ◌≤◌, ◌^◌, pos};

use crate::seam_edges::{is_seam_edge, next_start};
use crate::tile_ends::TileEnds;
use raster_model::{
    Edge, Heights, MAX_CYCLE_COST, MAX_DEPARTURE, MAX_TILED_SIDE, Mask, Scene, plain,
};

/// The cost of the seams: the sum of weight times the steps of the departure over the seam edges with open ends. (Chen and
/// Zebker 2002.)
pub(crate) fn seam_cost<H: Heights>(
    scene: &Scene,
    ends: &TileEnds,
    mask: &Mask,
    heights: &H,
) -> u128
    requires side { ends.now.side ≡ scene.now.tiling.side }
    requires same_size { (mask.now.width ≡ scene.now.phase.width) × (mask.now.height ≡ scene.now.phase.height) }
    requires known { KnowsOpen (raster_of scene.now) (open_at mask.now) (H.knows heights.now) }
    ensures { pos result ≡ seam_cost_of (raster_of scene.now) (open_at mask.now) (lifted (raster_of scene.now) (H.cycles_at heights.now)) }
{
    let mut cost: u128 = 0;
    for y in 0..scene.phase.height {
        cost += row_cost(scene, ends, mask, heights, y);
    }
    cost
}

/// What the edges that start in row `y` add to the cost of the seams.
fn row_cost<H: Heights>(scene: &Scene, ends: &TileEnds, mask: &Mask, heights: &H, y: u32) -> u128
    requires side { ends.now.side ≡ scene.now.tiling.side }
    requires same_size { (mask.now.width ≡ scene.now.phase.width) × (mask.now.height ≡ scene.now.phase.height) }
    requires row { y < scene.now.phase.height }
    requires known { KnowsOpen (raster_of scene.now) (open_at mask.now) (H.knows heights.now) }
    ensures value { pos result ≡ sum_row scene.now.phase.width (seam_cost_from (raster_of scene.now) (open_at mask.now) (lifted (raster_of scene.now) (H.cycles_at heights.now))) y }
    ensures small { result ≤ 2 * MAX_CYCLE_COST * MAX_DEPARTURE * MAX_TILED_SIDE }
{
    let mut cost: u128 = 0;
    let mut x = next_start(scene, ends, 0, y);
    while x < scene.phase.width {
        cost += cost_from(scene, ends, mask, heights, x, y);
        x = next_start(scene, ends, x + 1, y);
    }
    cost
}

/// What the edges that start at a pixel add to it.
fn cost_from<H: Heights>(
    scene: &Scene,
    ends: &TileEnds,
    mask: &Mask,
    heights: &H,
    x: u32,
    y: u32,
) -> u128
    requires side { ends.now.side ≡ scene.now.tiling.side }
    requires same_size { (mask.now.width ≡ scene.now.phase.width) × (mask.now.height ≡ scene.now.phase.height) }
    requires pixel { (x < scene.now.phase.width) × (y < scene.now.phase.height) }
    requires known { KnowsOpen (raster_of scene.now) (open_at mask.now) (H.knows heights.now) }
    ensures value { pos result ≡ seam_cost_from (raster_of scene.now) (open_at mask.now) (lifted (raster_of scene.now) (H.cycles_at heights.now)) x y }
    ensures small { result ≤ 2 * MAX_CYCLE_COST * MAX_DEPARTURE }
{
    let to_right = edge_cost(scene, ends, mask, heights, Edge { x, y, down: false });
    to_right + edge_cost(scene, ends, mask, heights, Edge { x, y, down: true })
}

/// What an edge that starts at a pixel adds to it, or 0 if it is not a seam edge.
fn edge_cost<H: Heights>(
    scene: &Scene,
    ends: &TileEnds,
    mask: &Mask,
    heights: &H,
    edge: Edge,
) -> u128
    requires side { ends.now.side ≡ scene.now.tiling.side }
    requires same_size { (mask.now.width ≡ scene.now.phase.width) × (mask.now.height ≡ scene.now.phase.height) }
    requires start { (edge.x < scene.now.phase.width) × (edge.y < scene.now.phase.height) }
    requires known { KnowsOpen (raster_of scene.now) (open_at mask.now) (H.knows heights.now) }
    ensures value { pos result ≡ where_true (is_edge scene.now.phase.width scene.now.phase.height edge) (seam_edge_cost (raster_of scene.now) (open_at mask.now) (lifted (raster_of scene.now) (H.cycles_at heights.now)) edge) }
    ensures small { result ≤ MAX_CYCLE_COST * MAX_DEPARTURE }
{
    if is_seam_edge(scene, ends, edge) {
        plain::edge_cost(scene, mask, heights, edge)
    } else {
        0
    }
}
