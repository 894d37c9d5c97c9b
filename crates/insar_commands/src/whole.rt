ghost use Rattle.insar_commands.specs.Ends.{IsRequestEnd};
ghost use Rattle.insar_commands.specs.Run.{run_of};
ghost use Rattle.insar_words.specs.declared.request.Request.TheVariants as requests;

use crate::ends::end_of;
use crate::pages::pages_for;
use crate::session::read_given_whole;
use answer_lines::Refusal;
use insar_ports::{Sink, Source};
use insar_words::Settings;
use std::alloc::Global;
use std::sync::Wait;
use std::thread::Threads;
use whole_solver::solve_whole;
use whole_text::write_whole;

/// Reads a session without tiles, whose scripts are not run, solves the whole raster under its first mask, writes the surface
/// that costs least of all with its certificate, and answers the status 0. Its lines are made by as many threads as those of
/// `unwrap`.
pub fn run_whole<R: Threads + Wait + Sync, S: Source, K: Sink>(
    rt: &R,
    alloc: Global,
    settings: Settings,
    source: &mut S,
    sink: &mut K,
) -> Result<u8, Refusal>
    ensures { IsRequestEnd (requests.Whole settings) (run_of S.left S.faults source.old source.new K.held K.faults sink.old sink.new) result }
{
    let session = read_given_whole(rt, alloc, source, settings)?;
    let sheet = session.scene.sheet();
    let mask = &session.first_mask;
    let solved = solve_whole(rt, alloc, &sheet, mask, settings.workers)?;
    let mut pages = pages_for(rt, alloc, &session.scene.phase, settings.workers)?;
    let put = write_whole(
        rt,
        &mut pages,
        &sheet,
        mask,
        &solved,
        &solved.faces,
        solved.cost,
        sink,
    );
    end_of(put, 0)
}
