ghost use Rattle.insar_commands.specs.Causes.{HasReadCause};
ghost use Rattle.insar_commands.specs.CheckWhole.{BreaksBothWhole, IsVerdictFor, IsWholeJudged, IsWholeStatus};
ghost use Rattle.insar_commands.specs.Ends.{IsRequestEnd};
ghost use Rattle.insar_commands.specs.Run.{ReadsAll, run_of};
ghost use Rattle.insar_words.specs.Requests.{options_of};
ghost use Rattle.insar_words.specs.declared.request.Request.TheVariants as requests;
ghost use Rattle.std.specs.Prelude.{IfErr, IfOk};
ghost use Rattle.whole_text.specs.Reading.{whole_told};

use crate::both::read_both_whole;
use crate::ends::end_of;
use answer_lines::{Refusal, put_whole_verdict};
use edge_weights::WholeSession;
use insar_ports::{Sink, Source};
use insar_words::Settings;
use std::alloc::Global;
use std::thread::Threads;
use whole_check::{WholeVerdict, check_whole_text};
use whole_text::Whole;

/// Reads a session without tiles and then the text of a whole surface, judges it, puts the line of the verdict into the sink,
/// and answers the status: 0 if the surface is accepted, and 1 if it is not.
pub fn run_check_whole<R: Threads + Sync, S: Source, K: Sink>(
    rt: &R,
    alloc: Global,
    settings: Settings,
    source: &mut S,
    sink: &mut K,
) -> Result<u8, Refusal>
    ensures { IsRequestEnd (requests.CheckWhole settings) (run_of S.left S.faults source.old source.new K.held K.faults sink.old sink.new) result }
{
    let verdict = read_judged(rt, alloc, source, settings)?;
    end_of(put_whole_verdict(sink, verdict), status_of(verdict))
}

/// Reads both, and judges the surface.
fn read_judged<R: Threads + Sync, S: Source>(
    rt: &R,
    alloc: Global,
    source: &mut S,
    settings: Settings,
) -> Result<WholeVerdict, Refusal>
    ensures read { IfOk result (λ verdict. ReadsAll (S.left source.old) (S.left source.new) (λ bytes. IsWholeJudged (options_of settings) bytes verdict)) }
    ensures refused { IfErr result (HasReadCause BreaksBothWhole (S.left source.old) (S.faults source.old) (S.faults source.new)) }
{
    let (session, whole) = read_both_whole(rt, alloc, source, settings)?;
    Ok(judge(&session, &whole))
}

/// The verdict on a whole surface for a session.
pub(crate) fn judge(session: &WholeSession, whole: &Whole) -> WholeVerdict
    ensures { IsVerdictFor session.now (whole_told whole.now) result }
{
    check_whole_text(&session.scene.sheet(), &session.first_mask, whole)
}

/// The exit status of a verdict.
fn status_of(verdict: WholeVerdict) -> u8
    ensures { IsWholeStatus verdict result }
{
    match verdict {
        WholeVerdict::Accepted => 0,
        _ => 1,
    }
}
