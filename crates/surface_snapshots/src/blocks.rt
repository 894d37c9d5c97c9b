ghost use Rattle.raster_model.specs.Limits.{IsSlope};
ghost use Rattle.raster_model.specs.Sums.{sum_row};
ghost use Rattle.std.specs.Prelude.{◌≡◌, ◌==◌, ◌+◌, ◌-◌, ◌*◌, ◌%◌, ◌<◌, ◌≤◌, ℕ, false, length, min, pos, slice_index, slice_index_or};
ghost use Rattle.surface_snapshots.specs.Loops.{AddUpTo, AreOfEdges};
ghost use Rattle.surface_snapshots.specs.Shifted.{AreLevelsFrom, cycles_under, is_open_there, mask_under};
ghost use Rattle.surface_snapshots.specs.Strips.{AddNothing, AreCounted, HaveRow, IsStillEdge, seam_costs_from, tile_costs_from};

use crate::counting::{Costs, NO_COSTS, PIECE, costs_from};
use crate::marks::{is_any_marked, mark_departures};
use crate::shifted::ShiftedTiles;
use raster_model::{Heights, MAX_TILED_SIDE, Mask};

/// How many rows a block has at most.
pub(crate) const ROWS: u32 = 16;

/// A surface whose cycles were found in some rows, for each of their pixels in row order.
#[derive(Drop)]
struct Block<'a> {
    surface: ShiftedTiles<'a>,
    /// The place of their first pixel in row order.
    start: usize,
    cycles: &'a [i64],
    ghost levels: { AreLevelsFrom surface start (length cycles.now) cycles.now },
}

impl Heights for Block<'_> {
    ghost knows = { λ s. is_open_there s.surface s.start (length s.cycles.now) };

    ghost cycles_at = { λ s. cycles_under s.surface };

    fn cycles(&self, x: u32, y: u32) -> i64 {
        let width = self.surface.scene.phase.width as usize;
        self.cycles[y as usize * width + x as usize - self.start]
    }
}

/// What the edges that start in the rows from `first` to before `end` add. The cycles there are found block by block, and
/// listed in the front of `cycles`, which has room for the rows of a block and the one below.
pub(crate) fn strip_costs(
    surface: &ShiftedTiles<'_>,
    mask: &Mask,
    first: u32,
    end: u32,
    cycles: &mut [i64],
) -> Costs
    requires mask { mask.now ≡ mask_under surface.now }
    requires rows { (first ≤ end) × (end ≤ surface.now.scene.now.phase.height) }
    requires room { (min (end - first) 16 + 1) * surface.now.scene.now.phase.width ≤ length cycles.old }
    ensures { AreCounted surface.now first end result }
{
    let mut costs = NO_COSTS;
    let mut y = first;
    while y < end {
        let next = (y + ROWS).min(end);
        costs = costs.plus(block_costs(surface, mask, y, next, cycles));
        y = next;
    }
    costs
}

/// What the edges of the rows of a block add. The cycles there and in the row below are listed first.
fn block_costs(
    surface: &ShiftedTiles<'_>,
    mask: &Mask,
    first: u32,
    end: u32,
    cycles: &mut [i64],
) -> Costs
    requires mask { mask.now ≡ mask_under surface.now }
    requires rows { (first < end) × (end ≤ surface.now.scene.now.phase.height) }
    requires room { (end - first + 1) * surface.now.scene.now.phase.width ≤ length cycles.old }
    ensures same { length cycles.new ≡ length cycles.old }
    ensures costs { AreCounted surface.now first end result }
{
    let scene = surface.scene;
    let width = scene.phase.width as usize;
    let start = first as usize * width;
    let below = (end + 1).min(scene.phase.height);
    let part = &mut cycles[..(below - first) as usize * width];
    surface.fill_strip(start, part);
    let block = Block {
        surface: *surface,
        start,
        cycles: part,
    };
    costs_of_rows(mask, &block, first, end)
}

/// What the edges add that start in the rows of a block from `first` to before `end`.
fn costs_of_rows(mask: &Mask, block: &Block<'_>, first: u32, end: u32) -> Costs
    requires mask { mask.now ≡ mask_under block.now.surface }
    requires rows { (first ≤ end) × (end ≤ block.now.surface.scene.now.phase.height) }
    requires listed { (y : ℕ) → first ≤ y → y < end → HaveRow block.now.surface block.now.start (length block.now.cycles.now) y }
    ensures { AreCounted block.now.surface first end result }
{
    let mut costs = NO_COSTS;
    for y in first..end {
        costs = costs.plus(costs_of_row(mask, block, y));
    }
    costs
}

/// What the edges add that start in a row of a block.
fn costs_of_row(mask: &Mask, block: &Block<'_>, y: u32) -> Costs
    requires mask { mask.now ≡ mask_under block.now.surface }
    requires row { y < block.now.surface.scene.now.phase.height }
    requires listed { HaveRow block.now.surface block.now.start (length block.now.cycles.now) y }
    ensures tiles { pos result.tiles ≡ sum_row block.now.surface.scene.now.phase.width (tile_costs_from block.now.surface) y }
    ensures seams { pos result.seams ≡ sum_row block.now.surface.scene.now.phase.width (seam_costs_from block.now.surface) y }
    ensures small { AreOfEdges (2 * MAX_TILED_SIDE) result }
{
    let width = block.surface.scene.phase.width;
    let mut costs = NO_COSTS;
    let mut x = 0;
    while x < width {
        let end = (x + PIECE).min(width);
        costs = costs.plus(costs_of_piece(mask, block, y, x, end));
        x = end;
    }
    costs
}

/// What the edges add that start in a piece of a row, from column `x0` to before column `end`. Its pixels are judged
/// first, many at once, and few of them are counted then.
fn costs_of_piece(mask: &Mask, block: &Block<'_>, y: u32, x0: u32, end: u32) -> Costs
    requires mask { mask.now ≡ mask_under block.now.surface }
    requires row { y < block.now.surface.scene.now.phase.height }
    requires piece { (x0 < end) × (end ≤ block.now.surface.scene.now.phase.width) × (end ≤ x0 + 64) }
    requires listed { HaveRow block.now.surface block.now.start (length block.now.cycles.now) y }
    ensures tiles { AddUpTo (tile_costs_from block.now.surface) y x0 end (pos result.tiles) }
    ensures seams { AddUpTo (seam_costs_from block.now.surface) y x0 end (pos result.seams) }
    ensures small { AreOfEdges (2 * (end - x0)) result }
{
    let mut marks = [false; PIECE as usize];
    let piece = &mut marks[..(end - x0) as usize];
    mark_pixels(block, y, x0, piece);
    if !is_any_marked(piece) {
        return NO_COSTS;
    }
    costs_of_marked(mask, block, y, x0, end, piece)
}

/// Marks each pixel of a piece of a row, from column `x0` on, at one of whose edges the surface may depart.
fn mark_pixels(block: &Block<'_>, y: u32, x0: u32, marks: &mut [bool])
    requires row { y < block.now.surface.scene.now.phase.height }
    requires piece { (x0 < block.now.surface.scene.now.phase.width) × (x0 + length marks.old ≤ block.now.surface.scene.now.phase.width) }
    requires listed { HaveRow block.now.surface block.now.start (length block.now.cycles.now) y }
    ensures same { length marks.new ≡ length marks.old }
    ensures still { (x : ℕ) → x0 ≤ x → x < x0 + length marks.old → slice_index_or marks.new (x - x0) false ≡ false → AddNothing block.now.surface x y }
{
    let scene = block.surface.scene;
    let width = scene.phase.width as usize;
    let place = y as usize * width + x0 as usize;
    let rights = marks.len().min(width - 1 - x0 as usize);
    mark_edges(block, place, 1, scene.terms.ramp_x, &mut marks[..rights]);
    if y + 1 < scene.phase.height {
        mark_edges(block, place, width, scene.terms.ramp_y, marks);
    }
}

/// Marks the edges at which the surface may depart, of those that lead from the pixels from a place on in row order, one
/// for each mark, to the pixels so many places further on.
fn mark_edges(block: &Block<'_>, place: usize, step: usize, slope: i32, marks: &mut [bool])
    requires slope { IsSlope slope }
    requires step { step ≤ block.now.surface.scene.now.phase.width }
    requires listed { (block.now.start ≤ place) × (place + step + length marks.old ≤ block.now.start + length block.now.cycles.now) }
    requires within { place + step + length marks.old ≤ block.now.surface.scene.now.phase.width * block.now.surface.scene.now.phase.height }
    ensures same { length marks.new ≡ length marks.old }
    ensures kept { (i : ℕ) → slice_index_or marks.new i false ≡ false → slice_index_or marks.old i false ≡ false }
    ensures still { (i : ℕ) → i < length marks.old → slice_index_or marks.new i false ≡ false → IsStillEdge slope (slice_index_or block.now.cycles.now (place - block.now.start + i) (pos 0)) (slice_index_or block.now.cycles.now (place - block.now.start + step + i) (pos 0)) (slice_index block.now.surface.scene.now.phase.samples.items (place + i)) (slice_index block.now.surface.scene.now.phase.samples.items (place + step + i)) }
{
    let here = place - block.start;
    let count = marks.len();
    let samples: &[u16] = &block.surface.scene.phase.samples;
    let from = &block.cycles[here..here + count];
    let to = &block.cycles[here + step..here + step + count];
    let first = &samples[place..place + count];
    let other = &samples[place + step..place + step + count];
    mark_departures(from, to, first, other, slope, marks);
}

/// What the edges add that start in a piece of a row, in which those pixels are marked at which they may add something.
fn costs_of_marked(
    mask: &Mask,
    block: &Block<'_>,
    y: u32,
    x0: u32,
    end: u32,
    marks: &[bool],
) -> Costs
    requires mask { mask.now ≡ mask_under block.now.surface }
    requires row { y < block.now.surface.scene.now.phase.height }
    requires piece { (x0 < end) × (end ≤ block.now.surface.scene.now.phase.width) }
    requires listed { HaveRow block.now.surface block.now.start (length block.now.cycles.now) y }
    requires marks { length marks.now ≡ end - x0 }
    requires still { (x : ℕ) → x0 ≤ x → x < end → slice_index_or marks.now (x - x0) false ≡ false → AddNothing block.now.surface x y }
    ensures tiles { AddUpTo (tile_costs_from block.now.surface) y x0 end (pos result.tiles) }
    ensures seams { AddUpTo (seam_costs_from block.now.surface) y x0 end (pos result.seams) }
    ensures small { AreOfEdges (2 * (end - x0)) result }
{
    let lowest = (y + 1) % block.surface.scene.tiling.side == 0;
    let mut costs = NO_COSTS;
    for x in x0..end {
        let marked = marks[(x - x0) as usize];
        costs = costs.plus(costs_of_pixel(mask, block, x, y, lowest, marked));
    }
    costs
}

/// What the edges add that start at a pixel. Only if it is marked they may add something.
fn costs_of_pixel(
    mask: &Mask,
    block: &Block<'_>,
    x: u32,
    y: u32,
    lowest: bool,
    marked: bool,
) -> Costs
    requires mask { mask.now ≡ mask_under block.now.surface }
    requires pixel { (x < block.now.surface.scene.now.phase.width) × (y < block.now.surface.scene.now.phase.height) }
    requires listed { HaveRow block.now.surface block.now.start (length block.now.cycles.now) y }
    requires lowest { lowest ≡ ((y + 1) % block.now.surface.scene.now.tiling.side == 0) }
    requires still { marked ≡ false → AddNothing block.now.surface x y }
    ensures tiles { pos result.tiles ≡ tile_costs_from block.now.surface x y }
    ensures seams { pos result.seams ≡ seam_costs_from block.now.surface x y }
    ensures small { AreOfEdges 2 result }
{
    if !marked {
        return NO_COSTS;
    }
    let scene = block.surface.scene;
    let last = (x + 1) % scene.tiling.side == 0;
    costs_from(scene, mask, block, x, y, last, lowest, false)
}
