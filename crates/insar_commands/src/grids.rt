ghost use Rattle.grid_writer.specs.ManyGrids.{AreGrids, grids_of};
ghost use Rattle.insar_commands.specs.Causes.{HasReadCause};
ghost use Rattle.insar_commands.specs.Grids.{AreGridsIn, BreaksMany};
ghost use Rattle.insar_commands.specs.Run.{ReadsAll};
ghost use Rattle.std.specs.Prelude.{◌≤◌, ℕ, IfErr, IfOk};

use answer_lines::Refusal;
use grid_writer::{Grid, read_grids};
use insar_ports::{Feed, Source};
use std::alloc::Global;

/// The greatest number of bytes of grids that are read one after the other.
pub(crate) const MAX_GRIDS_BYTES: u64 = 268_435_456;

/// Reads so many grids of one size from a source, after which it ends.
pub fn read_many<S: Source>(alloc: Global, source: &mut S, count: u32) -> Result<Vec<Grid>, Refusal>
    requires { 1 ≤ count }
    ensures read { IfOk result (λ grids. ReadsAll (S.left source.old) (S.left source.new) (λ bytes. AreGridsIn count bytes (grids_of grids.items))) }
    ensures alike { IfOk result (λ grids. (width height : ℕ) × AreGrids count width height (grids_of grids.items)) }
    ensures refused { IfErr result (HasReadCause (BreaksMany count) (S.left source.old) (S.faults source.old) (S.faults source.new)) }
{
    let mut feed = Feed::new(alloc, source, MAX_GRIDS_BYTES)?;
    let grids = read_grids(alloc, &mut feed, count)?;
    Ok(grids)
}
