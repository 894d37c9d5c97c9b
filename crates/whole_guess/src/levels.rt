use crate::building::Block;
use crate::guess::Task;
use cell_forest::{Cell, Forest, Record, SmallCell, Stop};
use std::alloc::{AllocError, Global};
use std::thread;
use std::thread::Threads;

/// The side of the smallest blocks, in cells.
pub(crate) const SMALLEST: u32 = 32;

/// How many blocks of a level lie across a block of the next.
pub(crate) const GROWTH: u32 = 2;

/// A strip of rows as high as a block, and what solves its blocks.
#[derive(Drop)]
struct Strip<'a, C: Record> {
    cells: &'a mut [C],
    /// Its first row.
    row: u32,
    forest: Forest,
    outcome: Result<(), Stop>,
}

/// Solves the blocks of a side of small cells, where those of the level before are solved. The strips are solved side by side. If a number does not fit,
/// the same can be done again with wide cells: what is solved stays so.
pub(crate) fn solve_small<R: Threads + Sync>(
    rt: &R,
    alloc: Global,
    task: &Task<'_>,
    cells: &mut [SmallCell],
    side: u32,
    workers: u32,
) -> Result<(), Stop> {
    let mut strips = cut(alloc, task, cells, side)?;
    thread::for_each_mut(
        rt,
        &mut strips,
        workers.max(1) as usize,
        &|_, strip: &mut Strip<'_, SmallCell>| {
            strip.outcome = strip.solve(alloc, task, side);
        },
    );
    outcome_of(&strips)
}

/// Solves the blocks of a side of wide cells, where those of the level before are solved. The strips are solved side by side.
pub(crate) fn solve_wide<R: Threads + Sync>(
    rt: &R,
    alloc: Global,
    task: &Task<'_>,
    cells: &mut [Cell],
    side: u32,
    workers: u32,
) -> Result<(), Stop> {
    let mut strips = cut(alloc, task, cells, side)?;
    thread::for_each_mut(
        rt,
        &mut strips,
        workers.max(1) as usize,
        &|_, strip: &mut Strip<'_, Cell>| {
            strip.outcome = strip.solve(alloc, task, side);
        },
    );
    outcome_of(&strips)
}

/// The first fault of some strips, if one has a fault.
fn outcome_of<C: Record>(strips: &[Strip<'_, C>]) -> Result<(), Stop> {
    for strip in strips {
        strip.outcome?;
    }
    Ok(())
}

/// Cuts the cells into strips as high as a block.
fn cut<'a, C: Record>(
    alloc: Global,
    task: &Task<'_>,
    cells: &'a mut [C],
    side: u32,
) -> Result<Vec<Strip<'a, C>>, AllocError> {
    let sheet = task.sheet;
    let size = side.wrapping_mul(sheet.phase.width).max(1) as usize;
    let (steep, greatest) = (sheet.terms.steep, u32::from(sheet.weights.maxval));
    let mut strips = Vec::new(alloc);
    let mut row: u32 = 0;
    for cells in cells.chunks_mut(size) {
        let forest = Forest::new(alloc, steep, greatest, cells.len(), task.patience)?;
        strips.push(Strip {
            cells,
            row,
            forest,
            outcome: Ok(()),
        })?;
        row = row.wrapping_add(side);
    }
    Ok(strips)
}

impl<C: Record> Strip<'_, C> {
    /// Solves the blocks of the strip. If one is given up, so are those after it.
    fn solve(&mut self, alloc: Global, task: &Task<'_>, side: u32) -> Result<(), Stop> {
        if side == SMALLEST {
            self.solve_smallest(alloc, task)
        } else {
            self.join(task.sheet.phase.width, side)
        }
    }

    /// Solves the smallest blocks, each in a list of its own, and puts their cells in the strip.
    fn solve_smallest(&mut self, alloc: Global, task: &Task<'_>) -> Result<(), Stop> {
        let mut block = Block::new(alloc);
        let width = task.sheet.phase.width;
        let along = SMALLEST.min(task.sheet.phase.height.wrapping_sub(self.row));
        for x in (0..width).step_by(SMALLEST as usize) {
            let across = SMALLEST.min(width.wrapping_sub(x));
            let listed = &mut self.forest.listed;
            block.build(task, (x, self.row), (across, along), listed)?;
            self.forest.set_stride(across);
            let outcome = self.forest.balance(&mut block.cells);
            copy_block(&block.cells, across, self.cells, x, width);
            outcome?;
        }
        Ok(())
    }

    /// Solves the blocks of a side, each of which is made of solved ones.
    fn join(&mut self, width: u32, side: u32) -> Result<(), Stop> {
        self.forest.set_stride(width);
        for x in (0..width).step_by(side.max(1) as usize) {
            let end = x.wrapping_add(side).min(width);
            self.forest.solve_block(self.cells, x, end, side / GROWTH)?;
        }
        Ok(())
    }
}

/// Copies a block into a strip, from the column `first` on.
fn copy_block<C: Record>(block: &[C], across: u32, cells: &mut [C], first: u32, width: u32) {
    let mut place = first as usize;
    for row in block.chunks(across.max(1) as usize) {
        if let Some(part) = cells.get_mut(place..place.wrapping_add(row.len())) {
            part.copy_from_slice(row);
        }
        place = place.wrapping_add(width as usize);
    }
}
