ghost use Rattle.grid_writer.specs.Grids.{IsGrid, grid_of, text_of_grid};
ghost use Rattle.grid_writer.specs.ManyGrids.{AreGridTexts, AreGrids, AreRefusedBy, BreaksGrids, GridsAreRead, HasGridsCause, HasSize, grids_of, text_of_grids};
ghost use Rattle.grid_writer.specs.ManyParts.{AreAlike, HasEndCause, HasNextGridCause, fault_in};
ghost use Rattle.insar_ports.specs.Bytes.{IsAtEnd};
ghost use Rattle.insar_ports.specs.Calls.{Moves, Takes, call_of};
ghost use Rattle.insar_ports.specs.Feeding.{faults_of, handed_of, left_of, limit_of, source_name};
ghost use Rattle.std.specs.Prelude.{◌≡◌, ◌<◌, ◌≤◌, ◌++◌, ◌∷◌, [], ℕ, All, IfErr, IfOk, IfSome, OnOk, false, length, true};
ghost use Rattle.text_lines.specs.Reading.{room_of};

use crate::fault::GridsFault;
use crate::read::read_grid;
use crate::values::Grid;
use insar_ports::{Feed, FeedFault, Source};
use std::alloc::Global;
use text_lines::LineFault;

/// Reads so many grids of one size, one after the other, to the end of the input. Each has the spelling that [`read_grid`]
/// reads. The first break in order of bytes is told; the size of a grid is judged once the grid was read.
pub fn read_grids<S: Source>(
    alloc: Global,
    feed: &mut Feed<S>,
    count: u32,
) -> Result<Vec<Grid>, GridsFault>
    requires some { 1 ≤ count }
    ensures same_source { source_name feed.new ≡ source_name feed.old }
    ensures same_limit { limit_of feed.new ≡ limit_of feed.old }
    // What was handed out is what the feed has no more.
    ensures moves { Moves (call_of S.left S.faults feed.old feed.new) }
    // The texts of the grids, one after the other, are what was handed out, and nothing follows.
    ensures read { IfOk result (λ grids. Takes (call_of S.left S.faults feed.old feed.new) (λ text rest. (text ≡ text_of_grids (grids_of grids.items)) × (rest ≡ []))) }
    ensures fits { IfOk result (λ grids. (width height : ℕ) × AreGrids count width height (grids_of grids.items)) }
    // The first break, or why else they are not read.
    ensures refused { IfErr result (HasGridsCause count (call_of S.left S.faults feed.old feed.new)) }
    // The texts of so many grids of one size, all let out, are read.
    ensures accepted { IfSome (left_of S.left feed.old) (λ bytes. AreGridTexts count bytes → length bytes ≤ room_of (call_of S.left S.faults feed.old feed.new) → GridsAreRead (call_of S.left S.faults feed.old feed.new) result) }
    // A first break is told.
    ensures exact { IfSome (left_of S.left feed.old) (λ bytes. (fault : GridsFault) → BreaksGrids count (handed_of feed.old) (room_of (call_of S.left S.faults feed.old feed.new)) bytes fault → AreRefusedBy (call_of S.left S.faults feed.old feed.new) fault result) }
{
    let mut grids = Vec::new(alloc);
    for whole in 0..count {
        read_next(alloc, feed, whole + 1, &mut grids)?;
    }
    see_end(feed, count)?;
    Ok(grids)
}

/// Reads the grid with this number and adds it to a list, if it has the size of those in the list.
fn read_next<S: Source>(
    alloc: Global,
    feed: &mut Feed<S>,
    number: u32,
    grids: &mut Vec<Grid>,
) -> Result<(), GridsFault>
    ensures same_source { source_name feed.new ≡ source_name feed.old }
    ensures same_limit { limit_of feed.new ≡ limit_of feed.old }
    ensures moves { Moves (call_of S.left S.faults feed.old feed.new) }
    ensures read { OnOk result ((grid : Grid) × ((grids.new.items ≡ grids.old.items ++ grid ∷ []) × (IsGrid (grid_of grid) × (AreAlike grids.old.items grid × Takes (call_of S.left S.faults feed.old feed.new) (λ text rest. text ≡ text_of_grid (grid_of grid)))))) }
    ensures refused { IfErr result (HasNextGridCause number grids.old.items (call_of S.left S.faults feed.old feed.new)) }
{
    let grid = match read_grid(alloc, feed) {
        Ok(grid) => grid,
        Err(fault) => return Err(in_grid(number, fault)),
    };
    if !is_alike(grids, &grid) {
        return Err(GridsFault::Sizes(number));
    }
    grids.push(grid)?;
    Ok(())
}

/// Why the grid with this number is not read.
fn in_grid(number: u32, fault: LineFault) -> GridsFault
    ensures { result ≡ fault_in number fault }
{
    match fault {
        LineFault::Line(line) => GridsFault::Line { grid: number, line },
        LineFault::TooLong => GridsFault::Long(number),
        LineFault::ReadFault => GridsFault::ReadFault,
        LineFault::Memory => GridsFault::Memory,
    }
}

/// Whether a grid has the size of the first in a list, if there is one.
fn is_alike(grids: &[Grid], grid: &Grid) -> bool
    ensures same { result ≡ true → AreAlike grids.now grid.now }
    ensures some { result ≡ false → 0 < length grids.now }
    ensures other { result ≡ false → (width height : ℕ) → All (λ g. HasSize width height (grid_of g)) grids.now → HasSize width height (grid_of grid.now) → ⊥ }
{
    match grids.first() {
        Some(first) => first.width == grid.width && first.height == grid.height,
        None => true,
    }
}

/// Sees that the input ends after the last grid, whose number is given.
fn see_end<S: Source>(feed: &mut Feed<S>, last: u32) -> Result<(), GridsFault>
    ensures same_source { source_name feed.new ≡ source_name feed.old }
    ensures same_limit { limit_of feed.new ≡ limit_of feed.old }
    ensures left { left_of S.left feed.new ≡ left_of S.left feed.old }
    ensures handed { handed_of feed.new ≡ handed_of feed.old }
    ensures grows { faults_of S.faults feed.old ≤ faults_of S.faults feed.new }
    ensures ended { OnOk result (IsAtEnd (left_of S.left feed.old)) }
    ensures refused { IfErr result (HasEndCause last (call_of S.left S.faults feed.old feed.new)) }
{
    match feed.peek() {
        Ok(None) => Ok(()),
        Ok(Some(_)) => Err(GridsFault::After(feed.handed())),
        Err(FeedFault::TooLong) => Err(GridsFault::Long(last)),
        Err(FeedFault::ReadFault) => Err(GridsFault::ReadFault),
    }
}
