ghost use Rattle.report_check.specs.Verdicts.{IsCheckVerdict};
ghost use Rattle.report_check.specs.declared.verdict.CheckVerdict.TheVariants.{Accepted};
ghost use Rattle.report_text.specs.Certified.{IsCertifiedReport, SurfacesAreBest};
ghost use Rattle.report_text.specs.Contents.{report_told};
ghost use Rattle.std.specs.Prelude.{◌≡◌, ◌↔◌, IfOk};

use crate::header::first_difference;
use crate::history::first_break;
use crate::surfaces::first_fault;
use crate::verdict::CheckVerdict;
use raster_model::Session;
use report_text::Report;
use std::alloc::{AllocError, Global};

/// Checks a report against a session: that it is certified, or the first thing that is wrong with it. First its head
/// is judged, then its history, then each published surface at the mask of its revision. It fails only for
/// lack of memory.
pub fn check_report(
    alloc: Global,
    session: &Session,
    report: &Report,
) -> Result<CheckVerdict, AllocError>
    ensures verdict { IfOk result (IsCheckVerdict session.now (report_told report.now)) }
    ensures accepted { IfOk result (λ verdict. (verdict ≡ Accepted) ↔ IsCertifiedReport session.now (report_told report.now)) }
    ensures best { IfOk result (λ verdict. verdict ≡ Accepted → SurfacesAreBest session.now (report_told report.now)) }
{
    verdict_on(alloc, session, report)
}

/// The verdict.
fn verdict_on(alloc: Global, session: &Session, report: &Report) -> Result<CheckVerdict, AllocError>
    ensures { IfOk result (IsCheckVerdict session.now (report_told report.now)) }
{
    if let Some(line) = first_difference(session, report) {
        return Ok(CheckVerdict::Header(line));
    }
    if let Some(number) = first_break(alloc, session, &report.items)? {
        return Ok(CheckVerdict::History(number));
    }
    match first_fault(alloc, session, report)? {
        Some(verdict) => Ok(verdict),
        None => Ok(CheckVerdict::Accepted),
    }
}
