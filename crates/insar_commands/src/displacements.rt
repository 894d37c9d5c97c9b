ghost use Rattle.grid_writer.specs.Grids.{grid_of};
ghost use Rattle.insar_commands.specs.Causes.{HasReadCause};
ghost use Rattle.insar_commands.specs.Displacement.{BreaksSight, HasDisplacements, sight_of as sight_asked};
ghost use Rattle.insar_commands.specs.Ends.{IsRequestEnd};
ghost use Rattle.insar_commands.specs.Run.{ReadsAll, run_of};
ghost use Rattle.insar_words.specs.declared.request.Request.TheVariants as requests;
ghost use Rattle.std.specs.Prelude.{◌≡◌, IfErr, IfOk};

use crate::ends::end_of;
use crate::grids::read_many;
use answer_lines::Refusal;
use displacement::{Sight, displace};
use grid_writer::{Grid, write_values};
use insar_ports::{Sink, Source};
use insar_words::Displacing;
use std::alloc::Global;

/// Reads a grid, turns it into displacements along the line of sight as the words set it, writes their grid, and answers the
/// status 0.
pub fn run_displacement<S: Source, K: Sink>(
    alloc: Global,
    displacing: Displacing,
    source: &mut S,
    sink: &mut K,
) -> Result<u8, Refusal>
    ensures { IsRequestEnd (requests.Displacement displacing) (run_of S.left S.faults source.old source.new K.held K.faults sink.old sink.new) result }
{
    let output = read_displaced(alloc, displacing, source)?;
    end_of(write_values(&output, sink), 0)
}

/// Reads a grid and gives its displacements.
fn read_displaced<S: Source>(
    alloc: Global,
    displacing: Displacing,
    source: &mut S,
) -> Result<Grid, Refusal>
    ensures read { IfOk result (λ output. ReadsAll (S.left source.old) (S.left source.new) (λ bytes. HasDisplacements (sight_asked displacing) bytes (grid_of output))) }
    ensures refused { IfErr result (HasReadCause (BreaksSight (sight_asked displacing)) (S.left source.old) (S.faults source.old) (S.faults source.new)) }
{
    let grids = read_many(alloc, source, 1)?;
    let [grid] = grids.as_slice() else {
        unreachable!()
    };
    let output = displace(alloc, grid, sight_of(displacing))?;
    Ok(output)
}

/// How the words say that a grid is turned into displacements.
fn sight_of(displacing: Displacing) -> Sight
    ensures { result ≡ sight_asked displacing }
{
    Sight {
        wavelength: displacing.wavelength,
        x: displacing.x,
        y: displacing.y,
        block: displacing.block,
    }
}
