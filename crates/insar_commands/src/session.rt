ghost use Rattle.insar_commands.specs.Causes.{HasReadCause};
ghost use Rattle.insar_commands.specs.Run.{ReadsAll};
ghost use Rattle.insar_commands.specs.Unwrap.{BreaksAlone, IsGiven};
ghost use Rattle.insar_words.specs.Requests.{options_of};
ghost use Rattle.insar_commands.specs.Whole.{BreaksWhole, IsWholeGiven};
ghost use Rattle.std.specs.Prelude.{◌≡◌, IfErr, IfOk};

use answer_lines::Refusal;
use edge_weights::{SceneSettings, WholeSession};
use insar_ports::{Feed, Source};
use insar_words::Settings;
use raster_model::{MAX_SESSION_BYTES, Session};
use session_script::{
    MAX_WHOLE_SESSION_BYTES, SessionUse, read_session_side_by_side, read_whole_session,
};
use std::alloc::Global;
use std::thread::Threads;

/// Reads the session that a source gives, after which it ends, on the settings. With two workers or more, more threads help.
pub fn read_given<R: Threads + Sync, S: Source>(
    rt: &R,
    alloc: Global,
    source: &mut S,
    settings: Settings,
) -> Result<Session, Refusal>
    ensures given { IfOk result (λ session. ReadsAll (S.left source.old) (S.left source.new) (λ bytes. IsGiven (options_of settings) bytes session)) }
    ensures refused { IfErr result (HasReadCause (BreaksAlone settings.side) (S.left source.old) (S.faults source.old) (S.faults source.new)) }
{
    let mut feed = Feed::new(alloc, source, MAX_SESSION_BYTES)?;
    let scene = scene_of(settings);
    let use_as = SessionUse::Alone;
    let session = read_session_side_by_side(rt, settings.workers, alloc, &mut feed, use_as, scene)?;
    Ok(session)
}

/// Reads the session without tiles that a source gives, after which it ends, by the rule and on the terms of the settings. With
/// two workers or more, more threads help.
pub fn read_given_whole<R: Threads + Sync, S: Source>(
    rt: &R,
    alloc: Global,
    source: &mut S,
    settings: Settings,
) -> Result<WholeSession, Refusal>
    ensures given { IfOk result (λ session. ReadsAll (S.left source.old) (S.left source.new) (λ bytes. IsWholeGiven (options_of settings) bytes session)) }
    ensures refused { IfErr result (HasReadCause BreaksWhole (S.left source.old) (S.faults source.old) (S.faults source.new)) }
{
    let Settings {
        rule,
        terms,
        workers,
        ..
    } = settings;
    let mut feed = Feed::new(alloc, source, MAX_WHOLE_SESSION_BYTES)?;
    let use_as = SessionUse::Alone;
    let session = read_whole_session(rt, workers, alloc, &mut feed, use_as, rule, terms)?;
    Ok(session)
}

/// How the settings have a scene made.
pub fn scene_of(settings: Settings) -> SceneSettings
    ensures side { result.side ≡ settings.side }
    ensures rule { result.rule ≡ settings.rule }
    ensures terms { result.terms ≡ settings.terms }
{
    SceneSettings {
        side: settings.side,
        rule: settings.rule,
        terms: settings.terms,
    }
}
