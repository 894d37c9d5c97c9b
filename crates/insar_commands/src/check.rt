ghost use Rattle.insar_commands.specs.Causes.{HasReadCause};
ghost use Rattle.insar_commands.specs.Check.{BreaksBoth, IsJudged, IsStatusOf};
ghost use Rattle.insar_commands.specs.Ends.{IsRequestEnd};
ghost use Rattle.insar_commands.specs.Run.{ReadsAll, run_of};
ghost use Rattle.insar_words.specs.Requests.{options_of};
ghost use Rattle.insar_words.specs.declared.request.Request.TheVariants as requests;
ghost use Rattle.std.specs.Prelude.{IfErr, IfOk};

use crate::both::read_both;
use crate::ends::end_of;
use answer_lines::{Refusal, put_verdict};
use insar_ports::{Sink, Source};
use insar_words::Settings;
use report_check::{CheckVerdict, check_report};
use std::alloc::Global;

/// Reads a session and then a report, judges the report, puts the line of the verdict into the sink, and answers the status:
/// 0 if the report is accepted, and 1 if it is not.
pub fn run_check<S: Source, K: Sink>(
    alloc: Global,
    settings: Settings,
    source: &mut S,
    sink: &mut K,
) -> Result<u8, Refusal>
    ensures { IsRequestEnd (requests.Check settings) (run_of S.left S.faults source.old source.new K.held K.faults sink.old sink.new) result }
{
    let verdict = read_judged(alloc, source, settings)?;
    end_of(put_verdict(sink, verdict), status_of(verdict))
}

/// Reads both, and judges the report.
fn read_judged<S: Source>(
    alloc: Global,
    source: &mut S,
    settings: Settings,
) -> Result<CheckVerdict, Refusal>
    ensures read { IfOk result (λ verdict. ReadsAll (S.left source.old) (S.left source.new) (λ bytes. IsJudged (options_of settings) bytes verdict)) }
    ensures refused { IfErr result (HasReadCause (BreaksBoth settings.side) (S.left source.old) (S.faults source.old) (S.faults source.new)) }
{
    let (session, report) = read_both(alloc, source, settings)?;
    let verdict = check_report(alloc, &session, &report)?;
    Ok(verdict)
}

/// The exit status of a verdict.
fn status_of(verdict: CheckVerdict) -> u8
    ensures { IsStatusOf verdict result }
{
    match verdict {
        CheckVerdict::Accepted => 0,
        _ => 1,
    }
}
