use crate::integrating::{cycles, faces, heights};
use crate::reaching::Reached;
use crate::residues::has_residue;
use crate::stages::Cells;
use crate::waters::Waters;
use cell_forest::{PATIENCE, Stop};
use raster_model::{Mask, Sheet};
use std::alloc::{AllocError, Global};
use std::thread::Threads;

/// What was guessed.
#[derive(Drop)]
pub enum Guess {
    /// A surface, and the faces that certify it: whole cycles above the phase at the pixels, and faces of the cells, both in
    /// row order.
    Surface { cycles: Vec<i64>, faces: Vec<i64> },
    /// What was reached before the guess gave up.
    Reached(Reached),
}

/// A sheet under a mask, and how it is solved.
#[derive(Drop)]
pub(crate) struct Task<'a> {
    pub(crate) sheet: &'a Sheet<'a>,
    pub(crate) mask: &'a Mask,
    pub(crate) waters: &'a Waters,
    /// How many arcs are followed at most for each cell.
    pub(crate) patience: u64,
}

/// Guesses the surface that costs least over the whole raster, and the faces that certify it. The cycles are 0 at the
/// first open pixel. At most `workers` threads work at once, but at least one does; the guess does not depend on how many.
/// If it gives up, since a number did not fit or the steps ran out, it tells what it has reached. Nothing is promised of
/// it, but it is right in every test. It fails only for lack of memory.
pub fn guess_whole<R: Threads + Sync>(
    rt: &R,
    alloc: Global,
    sheet: &Sheet,
    mask: &Mask,
    workers: u32,
) -> Result<Guess, AllocError> {
    guess_whole_within(rt, alloc, sheet, mask, workers, PATIENCE)
}

/// Guesses as `guess_whole` does, but gives up after `patience` steps for each cell of a strip of blocks.
pub fn guess_whole_within<R: Threads + Sync>(
    rt: &R,
    alloc: Global,
    sheet: &Sheet,
    mask: &Mask,
    workers: u32,
    patience: u64,
) -> Result<Guess, AllocError> {
    let (cells, is_solved) = solve_cells(rt, alloc, sheet, mask, workers, patience)?;
    if is_solved {
        surface(rt, alloc, sheet, mask, workers, cells)
    } else {
        Ok(Guess::Reached(cells.reached(alloc, sheet.phase.width)?))
    }
}

/// The cells of a sheet as they are solved, and whether nothing was given up. Where no cell has a residue nothing flows and all
/// faces are 0, and the list is empty.
fn solve_cells<R: Threads + Sync>(
    rt: &R,
    alloc: Global,
    sheet: &Sheet,
    mask: &Mask,
    workers: u32,
    patience: u64,
) -> Result<(Cells, bool), AllocError> {
    if !has_residue(sheet) {
        return Ok((Cells::none(alloc), true));
    }
    let waters = Waters::of(alloc, mask)?;
    let task = Task {
        sheet,
        mask,
        waters: &waters,
        patience,
    };
    let mut cells = Cells::outside(alloc, &task)?;
    let is_solved = is_done(cells.solve(rt, alloc, &task, workers))?;
    let is_drained = is_done(cells.drain_sea(alloc, &task))?;
    Ok((cells, is_solved && is_drained))
}

/// Whether nothing was given up.
fn is_done(outcome: Result<(), Stop>) -> Result<bool, AllocError> {
    match outcome {
        Ok(()) => Ok(true),
        Err(Stop::GivenUp | Stop::Unfit) => Ok(false),
        Err(Stop::Memory) => Err(AllocError),
    }
}

/// The surface that solved cells tell, with its faces. No more is kept than is needed for what is still to be told.
fn surface<R: Threads + Sync>(
    rt: &R,
    alloc: Global,
    sheet: &Sheet,
    mask: &Mask,
    workers: u32,
    cells: Cells,
) -> Result<Guess, AllocError> {
    match cells {
        Cells::Small(cells) => {
            let cycles = cycles(rt, alloc, sheet, mask, &cells, workers)?;
            let heights = heights(rt, alloc, sheet, &cells, workers)?;
            drop(cells);
            let faces = faces(rt, alloc, sheet, &heights, workers)?;
            Ok(Guess::Surface { cycles, faces })
        }
        Cells::Wide(cells) => Ok(Guess::Surface {
            cycles: cycles(rt, alloc, sheet, mask, &cells, workers)?,
            faces: faces(rt, alloc, sheet, &cells, workers)?,
        }),
    }
}
