ghost use Rattle.raster_model.specs.Masks.{open_at};
ghost use Rattle.raster_model.specs.Sheets.{sheet_raster};
ghost use Rattle.std.specs.Prelude.{◌≡◌, IfOk};
ghost use Rattle.whole_solver.specs.Results.{IsGoodWhole};

use crate::anchoring::anchored;
use crate::judging::certified;
use crate::network::{WholeSurface, solve_by_network};
use crate::result::WholeResult;
use raster_model::{Mask, Sheet};
use std::alloc::{AllocError, Global};
use std::thread::Threads;
use whole_guess::{Guess, Reached, guess_whole};

/// Solves the whole raster of a sheet as one tile. The surface is congruent under the mask, has the phase at the first open
/// pixel in row order, and no congruent surface costs less over all edges; its faces prove that. It fails only for lack of
/// memory. At most `workers` threads work at once, but at least one does. (Costantini 1998.)
pub fn solve_whole<R: Threads + Sync>(
    rt: &R,
    alloc: Global,
    sheet: &Sheet,
    mask: &Mask,
    workers: u32,
) -> Result<WholeResult, AllocError>
    requires same_size { (mask.now.width ≡ sheet.now.phase.now.width) × (mask.now.height ≡ sheet.now.phase.now.height) }
    ensures good { IfOk result (IsGoodWhole (sheet_raster sheet.now) (open_at mask.now)) }
{
    let guess = guess_whole(rt, alloc, sheet, mask, workers)?;
    solve_whole_from(rt, alloc, sheet, mask, workers, Some(guess))
}

/// Solves the whole raster as `solve_whole` does, from a guess. A surface that is certified is taken. Otherwise the network of
/// the whole raster is solved, from what the guess has reached where flows and faces go together, and else from nothing. So
/// a guess can cost time and nothing else. At most `workers` threads judge a surface at once, but at least one does. (McConnell,
/// Mehlhorn, Naeher and Schweitzer 2011.)
pub fn solve_whole_from<R: Threads + Sync>(
    rt: &R,
    alloc: Global,
    sheet: &Sheet,
    mask: &Mask,
    workers: u32,
    guess: Option<Guess>,
) -> Result<WholeResult, AllocError>
    requires same_size { (mask.now.width ≡ sheet.now.phase.now.width) × (mask.now.height ≡ sheet.now.phase.now.height) }
    ensures good { IfOk result (IsGoodWhole (sheet_raster sheet.now) (open_at mask.now)) }
{
    match guess {
        None => solved_by_network(rt, alloc, sheet, mask, workers, None),
        Some(Guess::Reached(reached)) => solved_by_network(
            rt,
            alloc,
            sheet,
            mask,
            workers,
            Some(reached),
        ),
        Some(Guess::Surface { cycles, faces }) => match certified(
            rt, sheet, mask, workers, cycles, faces,
        ) {
            Some(solved) => Ok(solved),
            None => solved_by_network(rt, alloc, sheet, mask, workers, None),
        },
    }
}

/// Solves the whole raster by its network, from what was reached, if anything was.
fn solved_by_network<R: Threads + Sync>(
    rt: &R,
    alloc: Global,
    sheet: &Sheet,
    mask: &Mask,
    workers: u32,
    reached: Option<Reached>,
) -> Result<WholeResult, AllocError>
    requires same_size { (mask.now.width ≡ sheet.now.phase.now.width) × (mask.now.height ≡ sheet.now.phase.now.height) }
    ensures good { IfOk result (IsGoodWhole (sheet_raster sheet.now) (open_at mask.now)) }
{
    let WholeSurface { cycles, faces } = solve_by_network(alloc, sheet, mask, reached)?;
    let cycles = anchored(sheet, mask, cycles);
    match certified(rt, sheet, mask, workers, cycles, faces) {
        Some(solved) => Ok(solved),
        None => unreachable!(),
    }
}
