ghost use Rattle.certificates.specs.Ends.{passes_end};
ghost use Rattle.raster_model.specs.Heights.{KnowsOpen};
ghost use Rattle.raster_model.specs.Limits.{max_tiled_side};
ghost use Rattle.raster_model.specs.Masks.{open_at};
ghost use Rattle.raster_model.specs.Raster.{has_open_ends, is_seam, lifted, seam_cost as seam_cost_of, seam_cost_from, seam_edge_cost};
ghost use Rattle.raster_model.specs.Scene.{raster_of};
ghost use Rattle.raster_model.specs.Sums.{is_edge, sum_row};
ghost use Rattle.std.specs.Prelude.{◌≡◌, ◌==◌, ◌+◌, ◌-◌, ◌*◌, ◌%◌, ◌<◌, ◌≤◌, ◌^◌, IfOk, IsTrue, if◌then◌else◌, pos};
ghost use Rattle.sums_and_lists.specs.Sums.{where_true};
ghost use Rattle.surface_snapshots.specs.Loops.{AddUpTo, AreOfEdges, AreOfRows, AreOpenFrom, FollowsDown, FollowsRight, KnowsFrom, KnowsOpenRows, inner_cost_from, inner_edge_cost};
ghost use Rattle.surface_snapshots.specs.Parts.{tile_costs};

use certificates::edge_cost;
use raster_model::{Edge, Heights, MAX_TILED_SIDE, Mask, Scene, departure};
use seam_regions::next_left;

/// What a surface costs.
#[derive(Clone, Copy)]
pub struct Costs {
    /// What all tiles cost together: the sum over the edges with open ends in one tile. (Costantini 1998.)
    pub tiles: u128,
    /// What the seams cost: the sum over the edges with open ends from tile to tile. (Chen and Zebker 2002.)
    pub seams: u128,
}

/// No costs.
pub(crate) const NO_COSTS: Costs = Costs { tiles: 0, seams: 0 };

/// How many pixels of a row are judged at once.
pub(crate) const PIECE: u32 = 64;

impl Costs {
    /// The costs of the surface that lies so high at the open pixels, in one pass over the edges.
    pub fn of<H: Heights>(scene: &Scene, mask: &Mask, heights: &H) -> Costs
        requires same_size { (mask.now.width ≡ scene.now.phase.width) × (mask.now.height ≡ scene.now.phase.height) }
        requires known { KnowsOpen (raster_of scene.now) (open_at mask.now) (H.knows heights.now) }
        ensures tiles { pos result.tiles ≡ tile_costs (raster_of scene.now) (open_at mask.now) (lifted (raster_of scene.now) (H.cycles_at heights.now)) }
        ensures seams { pos result.seams ≡ seam_cost_of (raster_of scene.now) (open_at mask.now) (lifted (raster_of scene.now) (H.cycles_at heights.now)) }
    {
        rows_costs(scene, mask, heights, 0, scene.phase.height)
    }

    /// The costs of both.
    pub(crate) fn plus(self, other: Costs) -> Costs
        requires tiles { self.tiles + other.tiles < 2 ^ 128 }
        requires seams { self.seams + other.seams < 2 ^ 128 }
        ensures tiles { result.tiles ≡ self.tiles + other.tiles }
        ensures seams { result.seams ≡ self.seams + other.seams }
    {
        Costs {
            tiles: self.tiles + other.tiles,
            seams: self.seams + other.seams,
        }
    }
}

/// What the edges that start in the rows from `first` to before `end` add.
pub(crate) fn rows_costs<H: Heights>(
    scene: &Scene,
    mask: &Mask,
    heights: &H,
    first: u32,
    end: u32,
) -> Costs
    requires same_size { (mask.now.width ≡ scene.now.phase.width) × (mask.now.height ≡ scene.now.phase.height) }
    requires known { KnowsOpenRows (raster_of scene.now) (open_at mask.now) (H.knows heights.now) first end }
    requires rows { (first ≤ end) × (end ≤ scene.now.phase.height) }
    ensures { AreOfRows (raster_of scene.now) (open_at mask.now) (lifted (raster_of scene.now) (H.cycles_at heights.now)) first end result }
{
    let mut costs = NO_COSTS;
    for y in first..end {
        costs = costs.plus(row_costs(scene, mask, heights, y));
    }
    costs
}

/// What the edges that start in a row add.
fn row_costs<H: Heights>(scene: &Scene, mask: &Mask, heights: &H, y: u32) -> Costs
    requires same_size { (mask.now.width ≡ scene.now.phase.width) × (mask.now.height ≡ scene.now.phase.height) }
    requires known { KnowsOpenRows (raster_of scene.now) (open_at mask.now) (H.knows heights.now) y (y + 1) }
    requires row { y < scene.now.phase.height }
    ensures tiles { pos result.tiles ≡ sum_row scene.now.phase.width (inner_cost_from (raster_of scene.now) (open_at mask.now) (lifted (raster_of scene.now) (H.cycles_at heights.now))) y }
    ensures seams { pos result.seams ≡ sum_row scene.now.phase.width (seam_cost_from (raster_of scene.now) (open_at mask.now) (lifted (raster_of scene.now) (H.cycles_at heights.now))) y }
    ensures small { AreOfEdges (2 * MAX_TILED_SIDE) result }
{
    let width = scene.phase.width;
    let mut costs = NO_COSTS;
    let mut x = 0;
    while x < width {
        let end = (x + PIECE).min(width);
        costs = costs.plus(piece_costs(scene, mask, heights, y, x, end));
        x = end;
    }
    costs
}

/// What the edges that start in a piece of a row add, from column `x0` to before column `end`. An edge at which the
/// surface does not depart adds nothing, in a tile or from tile to tile.
fn piece_costs<H: Heights>(
    scene: &Scene,
    mask: &Mask,
    heights: &H,
    y: u32,
    x0: u32,
    end: u32,
) -> Costs
    requires same_size { (mask.now.width ≡ scene.now.phase.width) × (mask.now.height ≡ scene.now.phase.height) }
    requires known { KnowsOpenRows (raster_of scene.now) (open_at mask.now) (H.knows heights.now) y (y + 1) }
    requires row { y < scene.now.phase.height }
    requires piece { (x0 < end) × (end ≤ scene.now.phase.width) }
    ensures tiles { AddUpTo (inner_cost_from (raster_of scene.now) (open_at mask.now) (lifted (raster_of scene.now) (H.cycles_at heights.now))) y x0 end (pos result.tiles) }
    ensures seams { AddUpTo (seam_cost_from (raster_of scene.now) (open_at mask.now) (lifted (raster_of scene.now) (H.cycles_at heights.now))) y x0 end (pos result.seams) }
    ensures small { AreOfEdges (2 * (end - x0)) result }
{
    let unmasked = are_open_from(mask, y, x0, end);
    if !unmasked || !follows(scene, heights, y, x0, end) {
        return costs_by_pixels(scene, mask, heights, y, x0, end, unmasked);
    }
    NO_COSTS
}

/// Whether the pixels of a row and of the next one are open, from column `x0` to column `end`, as far as the raster
/// goes.
fn are_open_from(mask: &Mask, y: u32, x0: u32, end: u32) -> bool
    requires row { y < mask.now.height }
    requires piece { (x0 < end) × (end ≤ mask.now.width) }
    ensures { IsTrue result → AreOpenFrom mask.now y x0 end }
{
    let last = end.min(mask.width() - 1);
    mask.is_open_span(y, x0, last) && (y + 1 == mask.height() || mask.is_open_span(y + 1, x0, last))
}

/// Whether a surface departs at no edge that starts in a piece of a row.
fn follows<H: Heights>(scene: &Scene, heights: &H, y: u32, x0: u32, end: u32) -> bool
    requires row { y < scene.now.phase.height }
    requires piece { (x0 < end) × (end ≤ scene.now.phase.width) }
    requires known { KnowsFrom (raster_of scene.now) (H.knows heights.now) y x0 end }
    ensures right { IsTrue result → FollowsRight (raster_of scene.now) (lifted (raster_of scene.now) (H.cycles_at heights.now)) y x0 end }
    ensures down { IsTrue result → y + 1 < scene.now.phase.height → FollowsDown (raster_of scene.now) (lifted (raster_of scene.now) (H.cycles_at heights.now)) y x0 end }
{
    if !follows_right(scene, heights, y, x0, end) {
        return false;
    }
    y + 1 == scene.phase.height || follows_down(scene, heights, y, x0, end)
}

/// Whether it departs at no right edge there. It does not stop at the first at which it does, so that several can be
/// judged at once.
fn follows_right<H: Heights>(scene: &Scene, heights: &H, y: u32, x0: u32, end: u32) -> bool
    requires row { y < scene.now.phase.height }
    requires piece { (x0 < end) × (end ≤ scene.now.phase.width) }
    requires known { KnowsFrom (raster_of scene.now) (H.knows heights.now) y x0 end }
    ensures { IsTrue result → FollowsRight (raster_of scene.now) (lifted (raster_of scene.now) (H.cycles_at heights.now)) y x0 end }
{
    let mut departs = false;
    for x in x0..end.min(scene.phase.width - 1) {
        let edge = Edge { x, y, down: false };
        departs |= departure(scene, heights, edge) != 0;
    }
    !departs
}

/// Whether it departs at no down edge there. The row is not the last.
fn follows_down<H: Heights>(scene: &Scene, heights: &H, y: u32, x0: u32, end: u32) -> bool
    requires row { y + 1 < scene.now.phase.height }
    requires piece { (x0 < end) × (end ≤ scene.now.phase.width) }
    requires known { KnowsFrom (raster_of scene.now) (H.knows heights.now) y x0 end }
    ensures { IsTrue result → FollowsDown (raster_of scene.now) (lifted (raster_of scene.now) (H.cycles_at heights.now)) y x0 end }
{
    let mut departs = false;
    for x in x0..end {
        let edge = Edge { x, y, down: true };
        departs |= departure(scene, heights, edge) != 0;
    }
    !departs
}

/// What the edges that start in a piece of a row add, counted pixel by pixel. `unmasked` tells that the pixels of the
/// row and of the next one are known to be open there.
fn costs_by_pixels<H: Heights>(
    scene: &Scene,
    mask: &Mask,
    heights: &H,
    y: u32,
    x0: u32,
    end: u32,
    unmasked: bool,
) -> Costs
    requires same_size { (mask.now.width ≡ scene.now.phase.width) × (mask.now.height ≡ scene.now.phase.height) }
    requires known { KnowsOpenRows (raster_of scene.now) (open_at mask.now) (H.knows heights.now) y (y + 1) }
    requires row { y < scene.now.phase.height }
    requires piece { (x0 < end) × (end ≤ scene.now.phase.width) }
    requires unmasked { IsTrue unmasked → AreOpenFrom mask.now y x0 end }
    ensures tiles { AddUpTo (inner_cost_from (raster_of scene.now) (open_at mask.now) (lifted (raster_of scene.now) (H.cycles_at heights.now))) y x0 end (pos result.tiles) }
    ensures seams { AddUpTo (seam_cost_from (raster_of scene.now) (open_at mask.now) (lifted (raster_of scene.now) (H.cycles_at heights.now))) y x0 end (pos result.seams) }
    ensures small { AreOfEdges (2 * (end - x0)) result }
{
    let side = scene.tiling.side;
    let lowest = (y + 1) % side == 0;
    let mut costs = NO_COSTS;
    // the columns of the tile from `x` on
    let mut left = side - x0 % side;
    for x in x0..end {
        let last = left == 1;
        costs = costs.plus(costs_at(scene, mask, heights, x, y, last, lowest, unmasked));
        left = next_left(left, side);
    }
    costs
}

/// What the edges that start at a pixel add. `last` tells that its column is the last of its tile, and
/// `lowest` that its row is. `unmasked` tells that its pixels are known to be open. At most pixels the surface departs
/// at neither edge.
fn costs_at<H: Heights>(
    scene: &Scene,
    mask: &Mask,
    heights: &H,
    x: u32,
    y: u32,
    last: bool,
    lowest: bool,
    unmasked: bool,
) -> Costs
    requires same_size { (mask.now.width ≡ scene.now.phase.width) × (mask.now.height ≡ scene.now.phase.height) }
    requires known { KnowsOpenRows (raster_of scene.now) (open_at mask.now) (H.knows heights.now) y (y + 1) }
    requires pixel { (x < scene.now.phase.width) × (y < scene.now.phase.height) }
    requires last { last ≡ ((x + 1) % scene.now.tiling.side == 0) }
    requires lowest { lowest ≡ ((y + 1) % scene.now.tiling.side == 0) }
    requires unmasked { IsTrue unmasked → AreOpenFrom mask.now y x (x + 1) }
    ensures tiles { pos result.tiles ≡ inner_cost_from (raster_of scene.now) (open_at mask.now) (lifted (raster_of scene.now) (H.cycles_at heights.now)) x y }
    ensures seams { pos result.seams ≡ seam_cost_from (raster_of scene.now) (open_at mask.now) (lifted (raster_of scene.now) (H.cycles_at heights.now)) x y }
    ensures small { AreOfEdges 2 result }
{
    let unmasked = are_open_at(mask, x, y, unmasked);
    if !unmasked || !follows_at(scene, heights, x, y) {
        return costs_from(scene, mask, heights, x, y, last, lowest, unmasked);
    }
    NO_COSTS
}

/// Whether a pixel and those on its right and below it are open, as far as the raster goes. If `unmasked` is true, they
/// are known to be.
fn are_open_at(mask: &Mask, x: u32, y: u32, unmasked: bool) -> bool
    requires pixel { (x < mask.now.width) × (y < mask.now.height) }
    requires wide { mask.now.width ≤ max_tiled_side }
    requires unmasked { IsTrue unmasked → AreOpenFrom mask.now y x (x + 1) }
    ensures { IsTrue result → AreOpenFrom mask.now y x (x + 1) }
{
    unmasked || are_open_from(mask, y, x, x + 1)
}

/// Whether a surface departs at neither edge that starts at a pixel.
fn follows_at<H: Heights>(scene: &Scene, heights: &H, x: u32, y: u32) -> bool
    requires pixel { (x < scene.now.phase.width) × (y < scene.now.phase.height) }
    requires known { KnowsFrom (raster_of scene.now) (H.knows heights.now) y x (x + 1) }
    ensures right { IsTrue result → FollowsRight (raster_of scene.now) (lifted (raster_of scene.now) (H.cycles_at heights.now)) y x (x + 1) }
    ensures down { IsTrue result → y + 1 < scene.now.phase.height → FollowsDown (raster_of scene.now) (lifted (raster_of scene.now) (H.cycles_at heights.now)) y x (x + 1) }
{
    if !follows_right_at(scene, heights, x, y) {
        return false;
    }
    follows_down_at(scene, heights, x, y)
}

/// Whether it does not depart at the right edge of a pixel, or there is none.
fn follows_right_at<H: Heights>(scene: &Scene, heights: &H, x: u32, y: u32) -> bool
    requires pixel { (x < scene.now.phase.width) × (y < scene.now.phase.height) }
    requires known { KnowsFrom (raster_of scene.now) (H.knows heights.now) y x (x + 1) }
    ensures { IsTrue result → FollowsRight (raster_of scene.now) (lifted (raster_of scene.now) (H.cycles_at heights.now)) y x (x + 1) }
{
    let edge = Edge { x, y, down: false };
    x + 1 == scene.phase.width || departure(scene, heights, edge) == 0
}

/// Whether it does not depart at the down edge of a pixel, or there is none.
fn follows_down_at<H: Heights>(scene: &Scene, heights: &H, x: u32, y: u32) -> bool
    requires pixel { (x < scene.now.phase.width) × (y < scene.now.phase.height) }
    requires known { KnowsFrom (raster_of scene.now) (H.knows heights.now) y x (x + 1) }
    ensures { IsTrue result → y + 1 < scene.now.phase.height → FollowsDown (raster_of scene.now) (lifted (raster_of scene.now) (H.cycles_at heights.now)) y x (x + 1) }
{
    let edge = Edge { x, y, down: true };
    y + 1 == scene.phase.height || departure(scene, heights, edge) == 0
}

/// What the edges that start at a pixel add, in the same way, edge by edge.
pub(crate) fn costs_from<H: Heights>(
    scene: &Scene,
    mask: &Mask,
    heights: &H,
    x: u32,
    y: u32,
    last: bool,
    lowest: bool,
    unmasked: bool,
) -> Costs
    requires same_size { (mask.now.width ≡ scene.now.phase.width) × (mask.now.height ≡ scene.now.phase.height) }
    requires known { KnowsOpenRows (raster_of scene.now) (open_at mask.now) (H.knows heights.now) y (y + 1) }
    requires pixel { (x < scene.now.phase.width) × (y < scene.now.phase.height) }
    requires last { last ≡ ((x + 1) % scene.now.tiling.side == 0) }
    requires lowest { lowest ≡ ((y + 1) % scene.now.tiling.side == 0) }
    requires unmasked { IsTrue unmasked → AreOpenFrom mask.now y x (x + 1) }
    ensures tiles { pos result.tiles ≡ inner_cost_from (raster_of scene.now) (open_at mask.now) (lifted (raster_of scene.now) (H.cycles_at heights.now)) x y }
    ensures seams { pos result.seams ≡ seam_cost_from (raster_of scene.now) (open_at mask.now) (lifted (raster_of scene.now) (H.cycles_at heights.now)) x y }
    ensures small { AreOfEdges 2 result }
{
    let right = Edge { x, y, down: false };
    let lower = Edge { x, y, down: true };
    let has_right = x + 1 < scene.phase.width;
    let has_lower = y + 1 < scene.phase.height;
    let costs = side_costs(scene, mask, heights, right, has_right, last, unmasked);
    costs.plus(side_costs(scene, mask, heights, lower, has_lower, lowest, unmasked))
}

/// What an edge adds, if it is one: `inside` tells that. `across` and `unmasked` are as for `edge_costs`.
fn side_costs<H: Heights>(
    scene: &Scene,
    mask: &Mask,
    heights: &H,
    edge: Edge,
    inside: bool,
    across: bool,
    unmasked: bool,
) -> Costs
    requires same_size { (mask.now.width ≡ scene.now.phase.width) × (mask.now.height ≡ scene.now.phase.height) }
    requires known { KnowsOpenRows (raster_of scene.now) (open_at mask.now) (H.knows heights.now) edge.y (edge.y + 1) }
    requires inside { inside ≡ is_edge scene.now.phase.width scene.now.phase.height edge }
    requires across { across ≡ passes_end scene.now.tiling.side edge }
    requires unmasked { IsTrue unmasked → IsTrue inside → IsTrue (has_open_ends (open_at mask.now) edge) }
    ensures tiles { pos result.tiles ≡ where_true inside (inner_edge_cost (raster_of scene.now) (open_at mask.now) (lifted (raster_of scene.now) (H.cycles_at heights.now)) edge) }
    ensures seams { pos result.seams ≡ where_true inside (seam_edge_cost (raster_of scene.now) (open_at mask.now) (lifted (raster_of scene.now) (H.cycles_at heights.now)) edge) }
    ensures small { AreOfEdges 1 result }
{
    if inside {
        edge_costs(scene, mask, heights, edge, across, unmasked)
    } else {
        NO_COSTS
    }
}

/// What an edge adds. `across` tells that its ends lie in two tiles, and `unmasked` that they are known to be open.
fn edge_costs<H: Heights>(
    scene: &Scene,
    mask: &Mask,
    heights: &H,
    edge: Edge,
    across: bool,
    unmasked: bool,
) -> Costs
    requires same_size { (mask.now.width ≡ scene.now.phase.width) × (mask.now.height ≡ scene.now.phase.height) }
    requires known { KnowsOpenRows (raster_of scene.now) (open_at mask.now) (H.knows heights.now) edge.y (edge.y + 1) }
    requires is_edge { IsTrue (is_edge scene.now.phase.width scene.now.phase.height edge) }
    requires across { across ≡ is_seam (raster_of scene.now) edge }
    requires unmasked { IsTrue unmasked → IsTrue (has_open_ends (open_at mask.now) edge) }
    ensures tiles { pos result.tiles ≡ inner_edge_cost (raster_of scene.now) (open_at mask.now) (lifted (raster_of scene.now) (H.cycles_at heights.now)) edge }
    ensures seams { pos result.seams ≡ seam_edge_cost (raster_of scene.now) (open_at mask.now) (lifted (raster_of scene.now) (H.cycles_at heights.now)) edge }
    ensures small { AreOfEdges 1 result }
{
    let cost = edge_cost(&scene.sheet(), mask, heights, edge, unmasked);
    if across {
        Costs {
            tiles: 0,
            seams: cost,
        }
    } else {
        Costs {
            tiles: cost,
            seams: 0,
        }
    }
}
