ghost use Rattle.insar_commands.specs.Ends.{IsRequestEnd};
ghost use Rattle.insar_commands.specs.Run.{run_of};
ghost use Rattle.insar_words.specs.declared.request.Request.TheVariants as requests;

use crate::both::read_both_whole;
use crate::check_whole::judge;
use crate::ends::end_of;
use answer_lines::{Refusal, put_whole_verdict};
use certain_parts::{parts_of_whole, write_parts};
use insar_ports::{Sink, Source};
use insar_words::Parting;
use std::alloc::Global;
use std::thread::Threads;
use whole_check::WholeVerdict;

/// Reads a session without tiles and then the text of a whole surface, writes the parts of the surface that words ask for, and
/// answers the status 0. If the surface is not accepted, it puts the line of the verdict in their place, and answers 1. Beside
/// what was read it takes 12 bytes a pixel at most.
pub fn run_parts<R: Threads + Sync, S: Source, K: Sink>(
    rt: &R,
    alloc: Global,
    parting: Parting,
    source: &mut S,
    sink: &mut K,
) -> Result<u8, Refusal>
    ensures { IsRequestEnd (requests.Parts parting) (run_of S.left S.faults source.old source.new K.held K.faults sink.old sink.new) result }
{
    let Parting {
        settings,
        margin,
        least,
    } = parting;
    let (session, whole) = read_both_whole(rt, alloc, source, settings)?;
    let mask = &session.first_mask;
    match judge(&session, &whole) {
        WholeVerdict::Accepted => {
            let parts = parts_of_whole(alloc, &session.scene.sheet(), mask, &whole, margin, least)?;
            end_of(write_parts(&parts, mask, margin, least, sink), 0)
        }
        verdict => end_of(put_whole_verdict(sink, verdict), 1),
    }
}
