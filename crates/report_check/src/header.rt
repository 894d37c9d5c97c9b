ghost use Rattle.report_check.specs.Verdicts.{DiffersAt, HasHeadOf};
ghost use Rattle.report_text.specs.Contents.{report_told};
ghost use Rattle.std.specs.Prelude.{MatchOption};

use raster_model::Session;
use report_text::Report;

/// The number of the first line, of 2 to 6, that is not the session's: size, tile side, rule, ramp, steepness.
pub(crate) fn first_difference(session: &Session, report: &Report) -> Option<u32>
    ensures { MatchOption result (HasHeadOf session.now (report_told report.now)) (DiffersAt session.now (report_told report.now)) }
{
    let scene = &session.scene;
    if report.width != scene.phase.width || report.height != scene.phase.height {
        return Some(2);
    }
    if report.side != scene.tiling.side {
        return Some(3);
    }
    if report.rule != scene.rule {
        return Some(4);
    }
    if report.terms.ramp_x != scene.terms.ramp_x || report.terms.ramp_y != scene.terms.ramp_y {
        return Some(5);
    }
    if report.terms.steep != scene.terms.steep {
        return Some(6);
    }
    None
}
