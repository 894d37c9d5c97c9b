ghost use Rattle.displacement.specs.Blocks.{block_count, block_sum, blocks_of};
ghost use Rattle.displacement.specs.Displacements.{IsBlockSide};
ghost use Rattle.displacement.specs.declared.sight.TheConstants.{MAX_BLOCK, MAX_BLOCK_PIXELS};
ghost use Rattle.displacement.specs.Steps.{IsListTotal, MayBeSum};
ghost use Rattle.grid_writer.specs.Grids.{grid_of};
ghost use Rattle.raster_model.specs.Limits.{max_tiled_side};
ghost use Rattle.std.specs.Prelude.{◌≡◌, ◌≤◌, ◌<◌, ◌+◌, ◌*◌, min, length};

use crate::total::Total;
use grid_writer::Grid;

/// The total of a piece of a row.
fn piece_total(values: &[i64]) -> Total
    requires { length values.now ≤ MAX_BLOCK }
    ensures { IsListTotal values.now (length values.now) result.count result.sum }
{
    let mut total = Total::NONE;
    for value in values {
        total = total.plus(*value);
    }
    total
}

/// The first place of a block along a side, and the place after its last.
fn block_span(number: u32, block: u32, side: u32) -> (usize, usize)
    requires blocks { IsBlockSide block }
    requires sides { side ≤ max_tiled_side }
    requires inside { number < blocks_of block side }
    ensures first { result.0 ≡ block * number }
    ensures last { result.1 ≡ min side (block * number + block) }
    ensures some { result.0 < side }
{
    let first = block * number;
    (first as usize, side.min(first + block) as usize)
}

/// The total of a block.
pub(crate) fn block_total(grid: &Grid, block: u32, column: u32, row: u32) -> Total
    requires blocks { IsBlockSide block }
    requires across { column < blocks_of block grid.now.width }
    requires along { row < blocks_of block grid.now.height }
    ensures count { result.count ≡ block_count (grid_of grid.now) block column row }
    ensures sum { result.sum ≡ block_sum (grid_of grid.now) block column row }
    ensures few { result.count ≤ MAX_BLOCK_PIXELS }
    ensures within { MayBeSum result.count result.sum }
{
    let width = grid.width as usize;
    let (left, right) = block_span(column, block, grid.width);
    let (top, bottom) = block_span(row, block, grid.height);
    let mut total = Total::NONE;
    for v in 0..bottom - top {
        let start = (top + v) * width;
        total = total.join(piece_total(&grid.values[start + left..start + right]));
    }
    total
}
