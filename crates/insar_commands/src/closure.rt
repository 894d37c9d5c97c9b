ghost use Rattle.insar_commands.specs.Causes.{HasReadCause};
ghost use Rattle.insar_commands.specs.Closure.{AreLoopsOf, BreaksLoop};
ghost use Rattle.insar_commands.specs.Ends.{IsRequestEnd};
ghost use Rattle.insar_commands.specs.Run.{ReadsAll, run_of};
ghost use Rattle.insar_words.specs.declared.request.Request.TheVariants as requests;
ghost use Rattle.std.specs.Prelude.{IfErr, IfOk};

use crate::ends::end_of;
use crate::grids::read_many;
use answer_lines::Refusal;
use insar_ports::{Sink, Source};
use loop_closure::{Loops, close_loop, write_loops};
use std::alloc::Global;

/// Reads three grids, which are the phases 12, 23 and 13 of three acquisitions, closes their loop, writes the closures, the
/// cycles in them and the patches that are misclosed, and answers the status 0.
pub fn run_closure<S: Source, K: Sink>(
    alloc: Global,
    source: &mut S,
    sink: &mut K,
) -> Result<u8, Refusal>
    ensures { IsRequestEnd requests.Closure (run_of S.left S.faults source.old source.new K.held K.faults sink.old sink.new) result }
{
    let loops = read_loops(alloc, source)?;
    end_of(write_loops(&loops, sink), 0)
}

/// Reads three grids and closes their loop.
fn read_loops<S: Source>(alloc: Global, source: &mut S) -> Result<Loops, Refusal>
    ensures read { IfOk result (λ loops. ReadsAll (S.left source.old) (S.left source.new) (λ bytes. AreLoopsOf bytes loops)) }
    ensures refused { IfErr result (HasReadCause BreaksLoop (S.left source.old) (S.faults source.old) (S.faults source.new)) }
{
    let grids = read_many(alloc, source, 3)?;
    let [a, b, c] = grids.as_slice() else {
        unreachable!()
    };
    let loops = close_loop(alloc, a, b, c)?;
    Ok(loops)
}
