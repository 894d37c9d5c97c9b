use crate::grid::Grid;
use crate::loading::Tile;
use cell_forest::{Cell, Forest, PATIENCE, Stop};
use std::alloc::{AllocError, Global};

/// The side of the smallest blocks, in cells.
const SMALLEST: u32 = 32;

/// How many blocks of a level lie across a block of the next.
const GROWTH: u32 = 2;

impl Tile {
    /// Balances all cells: those within the smallest blocks first, and level by level those between blocks. If that is given up,
    /// some are left as they are.
    pub(crate) fn solve(&mut self, alloc: Global, grid: Grid<'_>) -> Result<(), AllocError> {
        let greatest = digits(grid.right) | digits(grid.down);
        let mut forest = Forest::new(alloc, grid.steep, greatest, self.cells.len(), PATIENCE)?;
        forest.set_stride(self.stride);
        match self.solve_levels(&mut forest) {
            Err(Stop::Memory) => Err(AllocError),
            Ok(()) | Err(Stop::GivenUp | Stop::Unfit) => Ok(()),
        }
    }

    /// Solves blocks level by level, until one block is the whole.
    fn solve_levels(&mut self, forest: &mut Forest) -> Result<(), Stop> {
        let mut side = SMALLEST;
        let mut solved = 1;
        for _ in 0..16 {
            self.solve_level(forest, side, solved)?;
            if side >= self.stride && side > self.along {
                return Ok(());
            }
            solved = side;
            side = side.wrapping_mul(GROWTH);
        }
        Ok(())
    }

    /// Solves the blocks of a side, in which blocks of the side `solved` are solved.
    fn solve_level(&mut self, forest: &mut Forest, side: u32, solved: u32) -> Result<(), Stop> {
        let size = side.wrapping_mul(self.stride).max(1) as usize;
        for strip in self.cells.chunks_mut(size) {
            solve_strip(forest, strip, self.stride, side, solved)?;
        }
        Ok(())
    }
}

/// Solves the blocks of a strip of rows as high as a block.
fn solve_strip(
    forest: &mut Forest,
    strip: &mut [Cell],
    stride: u32,
    side: u32,
    solved: u32,
) -> Result<(), Stop> {
    for x in (0..stride).step_by(side.max(1) as usize) {
        forest.solve_block(strip, x, x.wrapping_add(side).min(stride), solved)?;
    }
    Ok(())
}

/// A number that is no less than any of the weights.
fn digits(weights: &[i32]) -> u32 {
    let mut digits = 0;
    for weight in weights {
        digits |= weight.cast_unsigned();
    }
    digits
}
