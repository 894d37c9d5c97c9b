ghost use Rattle.insar_commands.specs.Ends.{IsRequestEnd};
ghost use Rattle.insar_commands.specs.Run.{run_of};
ghost use Rattle.insar_words.specs.declared.request.Request.TheVariants as requests;

use crate::board::finished;
use crate::ends::end_of;
use crate::pages::pages_for;
use crate::session::read_given;
use answer_lines::Refusal;
use insar_ports::{Sink, Source};
use insar_words::Settings;
use report_text::write_report_side_by_side;
use std::alloc::Global;
use std::sync::Wait;
use std::thread::Threads;
use tile_workers::Gate;

/// Reads a session, runs its scripts as the words set it, writes the report, and answers the status 0. As many threads as
/// there are workers, though no more than there are processors, make the lines of surfaces, on pages that are there before the
/// first line is written.
pub fn run_unwrap<R: Threads + Wait + Sync, S: Source, K: Sink, G: Gate>(
    rt: &R,
    alloc: Global,
    settings: Settings,
    source: &mut S,
    sink: &mut K,
    gate: &G,
) -> Result<u8, Refusal>
    ensures { IsRequestEnd (requests.Unwrap settings) (run_of S.left S.faults source.old source.new K.held K.faults sink.old sink.new) result }
{
    let session = read_given(rt, alloc, source, settings)?;
    let board = finished(rt, alloc, session, settings.workers, gate)?;
    let pages = pages_for(rt, alloc, &board.session().scene.phase, settings.workers)?;
    end_of(write_report_side_by_side(rt, pages, &board, sink), 0)
}
