ghost use Rattle.edge_weights.specs.Sessions.{HasSettings};
ghost use Rattle.insar_ports.specs.Calls.{call_of};
ghost use Rattle.insar_ports.specs.Feeding.{faults_of, handed_of, limit_of, source_name};
ghost use Rattle.insar_commands.specs.Both.{AreRead, IsBoth, most_of_text};
ghost use Rattle.insar_commands.specs.Causes.{HasReadCause};
ghost use Rattle.insar_commands.specs.Check.{BreaksBoth};
ghost use Rattle.insar_commands.specs.CheckWhole.{BreaksBothWhole, IsBothWhole};
ghost use Rattle.insar_commands.specs.Options.{HasWholeOptions};
ghost use Rattle.insar_words.specs.Requests.{options_of};
ghost use Rattle.raster_model.specs.Limits.{max_session_bytes};
ghost use Rattle.report_text.specs.Contents.{IsReport, report_told};
ghost use Rattle.report_text.specs.Text.{report_text};
ghost use Rattle.session_script.specs.Causes.{HasSessionCause, HasWholeCause};
ghost use Rattle.session_script.specs.Layouts.{as_whole, in_tiles, max_whole_session_bytes};
ghost use Rattle.session_script.specs.Reaching.{Reaches};
ghost use Rattle.session_script.specs.Sessions.{IsSessionIn, IsWholeSessionIn, session_of, whole_session_of};
ghost use Rattle.session_script.specs.declared.session_use.SessionUse.TheVariants.{BeforeReport};
ghost use Rattle.std.specs.Prelude.{◌≡◌, ◌+◌, ◌≤◌, IfErr, IfOk};
ghost use Rattle.whole_text.specs.Reading.{whole_told};
ghost use Rattle.whole_text.specs.Text.{IsWhole, whole_text};

use crate::session::scene_of;
use answer_lines::Refusal;
use edge_weights::{SceneSettings, WholeSession};
use insar_ports::{Feed, Source};
use insar_words::Settings;
use raster_model::{MAX_REPORT_BYTES, MAX_SESSION_BYTES, Session};
use report_text::{Report, read_report};
use session_script::{
    MAX_WHOLE_SESSION_BYTES, SessionFault, SessionUse, read_session_on, read_whole_session,
};
use std::alloc::Global;
use std::thread::Threads;
use whole_text::{Whole, read_whole};

/// The greatest number of bytes of a whole surface's text that is read.
pub const MAX_WHOLE_BYTES: u64 = 1 << 36;

/// Reads the session and the report after it that a source gives.
pub(crate) fn read_both<S: Source>(
    alloc: Global,
    source: &mut S,
    settings: Settings,
) -> Result<(Session, Report), Refusal>
    ensures read { IfOk result (λ both. AreRead (IsBoth (options_of settings)) (S.left source.old) (S.left source.new) both.0 (report_text (report_told both.1))) }
    ensures in_range { IfOk result (λ both. IsReport (report_told both.1)) }
    ensures refused { IfErr result (HasReadCause (BreaksBoth settings.side) (S.left source.old) (S.faults source.old) (S.faults source.new)) }
{
    let mut feed = Feed::new(alloc, source, MAX_SESSION_BYTES)?;
    let session = read_first(alloc, &mut feed, scene_of(settings), MAX_REPORT_BYTES)?;
    let report = read_report(alloc, &mut feed)?;
    Ok((session, report))
}

/// Reads the session at the start of a feed, after which another text is to follow, and lets the feed give as many bytes more
/// as that text may have.
pub(crate) fn read_first<S: Source>(
    alloc: Global,
    feed: &mut Feed<S>,
    scene: SceneSettings,
    most: u64,
) -> Result<Session, SessionFault>
    requires start { handed_of feed.old ≡ 0 }
    requires limit { limit_of feed.old ≡ max_session_bytes }
    requires few { most ≤ most_of_text (in_tiles scene.side) }
    ensures same_source { source_name feed.new ≡ source_name feed.old }
    ensures room { IfOk result (λ session. limit_of feed.new ≡ handed_of feed.new + most) }
    ensures grows { faults_of S.faults feed.old ≤ faults_of S.faults feed.new }
    ensures read { IfOk result (λ session. Reaches (call_of S.left S.faults feed.old feed.new) (λ bytes rest. IsSessionIn BeforeReport scene.side bytes (session_of session) rest)) }
    ensures settings { IfOk result (λ session. HasSettings scene session.scene) }
    ensures refused { IfErr result (HasSessionCause BeforeReport scene.side (call_of S.left S.faults feed.old feed.new)) }
{
    let session = read_session_on(alloc, feed, SessionUse::BeforeReport, scene)?;
    feed.set_limit(feed.handed() + most);
    Ok(session)
}

/// Reads the session without tiles and the text of a whole surface after it that a source gives. With two workers or more,
/// more threads help.
pub(crate) fn read_both_whole<R: Threads + Sync, S: Source>(
    rt: &R,
    alloc: Global,
    source: &mut S,
    settings: Settings,
) -> Result<(WholeSession, Whole), Refusal>
    ensures read { IfOk result (λ both. AreRead (IsBothWhole (options_of settings)) (S.left source.old) (S.left source.new) both.0 (whole_text (whole_told both.1))) }
    ensures in_range { IfOk result (λ both. IsWhole (whole_told both.1)) }
    ensures refused { IfErr result (HasReadCause BreaksBothWhole (S.left source.old) (S.faults source.old) (S.faults source.new)) }
{
    let mut feed = Feed::new(alloc, source, MAX_WHOLE_SESSION_BYTES)?;
    let session = read_first_whole(rt, alloc, &mut feed, settings)?;
    let whole = read_whole(alloc, &mut feed)?;
    Ok((session, whole))
}

/// Reads the session without tiles at the start of a feed, after which the text of a whole surface is to follow, and lets the
/// feed give as many bytes more as that text may have.
fn read_first_whole<R: Threads + Sync, S: Source>(
    rt: &R,
    alloc: Global,
    feed: &mut Feed<S>,
    settings: Settings,
) -> Result<WholeSession, SessionFault>
    requires start { handed_of feed.old ≡ 0 }
    requires limit { limit_of feed.old ≡ max_whole_session_bytes }
    ensures same_source { source_name feed.new ≡ source_name feed.old }
    ensures room { IfOk result (λ session. limit_of feed.new ≡ handed_of feed.new + most_of_text as_whole) }
    ensures grows { faults_of S.faults feed.old ≤ faults_of S.faults feed.new }
    ensures read { IfOk result (λ session. Reaches (call_of S.left S.faults feed.old feed.new) (λ bytes rest. IsWholeSessionIn BeforeReport bytes (whole_session_of session) rest)) }
    ensures options { IfOk result (HasWholeOptions (options_of settings)) }
    ensures refused { IfErr result (HasWholeCause BeforeReport (call_of S.left S.faults feed.old feed.new)) }
{
    let Settings {
        rule,
        terms,
        workers,
        ..
    } = settings;
    let use_as = SessionUse::BeforeReport;
    let session = read_whole_session(rt, workers, alloc, feed, use_as, rule, terms)?;
    feed.set_limit(feed.handed() + MAX_WHOLE_BYTES);
    Ok(session)
}
