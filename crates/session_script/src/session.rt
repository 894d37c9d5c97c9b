ghost use Rattle.edge_weights.specs.Sessions.{HasSettings};
ghost use Rattle.raster_model.specs.Limits.{IsTileSide, max_session_bytes};
ghost use Rattle.raster_model.specs.Terms.{ArePlainTerms};
ghost use Rattle.insar_ports.specs.Feeding.{handed_of, limit_of, source_name};
ghost use Rattle.insar_ports.specs.Calls.{call_of};
ghost use Rattle.session_script.specs.declared.fault.SessionFault.TheVariants as session_faults;
ghost use Rattle.session_script.specs.Building.{parts_read};
ghost use Rattle.session_script.specs.Making.{IsMadeOf};
ghost use Rattle.session_script.specs.Outcomes.{IsSessionOutcome};
ghost use Rattle.session_script.specs.Sessions.{session_of};
ghost use Rattle.std.specs.Prelude.{◌≡◌, IfErr, IfOk};

use crate::fault::SessionFault;
use crate::frame::ScriptFrame;
use crate::maker::{Maker, OneThread, SideBySide};
use crate::planes::read_planes;
use crate::script::read_scripts;
use crate::session_use::SessionUse;
use edge_weights::{SceneSettings, SessionParts};
use insar_ports::{Feed, Source};
use pgm_planes::Extent;
use raster_model::{RuleKind, Session, Tiling};
use std::alloc::Global;
use std::thread::Threads;

/// Reads a session from the start of a source: a phase plane, weights and a mask if they are there, and the analysts'
/// scripts. The weights of the edges are those of the rule `kind`, tiles have the side `side`, and the terms are the plain
/// ones. Places and lines of a fault count from the start of the source and of the script part.
///
/// After a refusal the feed is where it was met, and the caller ends.
pub fn read_session<S: Source>(
    alloc: Global,
    feed: &mut Feed<S>,
    use_as: SessionUse,
    side: u32,
    kind: RuleKind,
) -> Result<Session, SessionFault>
    requires start { handed_of feed.old ≡ 0 }
    requires limit { limit_of feed.old ≡ max_session_bytes }
    requires sides { IsTileSide side }
    ensures same_source { source_name feed.new ≡ source_name feed.old }
    ensures same_limit { limit_of feed.new ≡ limit_of feed.old }
    // What is spelled so is read, and what has a fault is refused with it.
    ensures outcome { IsSessionOutcome use_as side (call_of S.left S.faults feed.old feed.new) result }
    ensures scene { IfOk result (λ session. (session.scene.rule ≡ kind) × (session.scene.tiling.side ≡ side)) }
    ensures terms { IfOk result (λ session. ArePlainTerms session.scene.terms) }
{
    read_session_on(alloc, feed, use_as, SceneSettings::plain(side, kind))
}

/// Reads a session as `read_session` does, on any settings.
pub fn read_session_on<S: Source>(
    alloc: Global,
    feed: &mut Feed<S>,
    use_as: SessionUse,
    settings: SceneSettings,
) -> Result<Session, SessionFault>
    requires start { handed_of feed.old ≡ 0 }
    requires limit { limit_of feed.old ≡ max_session_bytes }
    ensures same_source { source_name feed.new ≡ source_name feed.old }
    ensures same_limit { limit_of feed.new ≡ limit_of feed.old }
    ensures outcome { IsSessionOutcome use_as settings.side (call_of S.left S.faults feed.old feed.new) result }
    ensures settings { IfOk result (λ session. HasSettings settings session.scene) }
{
    read_by(&OneThread, alloc, feed, use_as, settings)
}

/// The same. If `threads` is 2 or more, two more threads weigh the edges while the caller's makes the mask.
pub fn read_session_side_by_side<R: Threads + Sync, S: Source>(
    rt: &R,
    threads: u32,
    alloc: Global,
    feed: &mut Feed<S>,
    use_as: SessionUse,
    settings: SceneSettings,
) -> Result<Session, SessionFault>
    requires start { handed_of feed.old ≡ 0 }
    requires limit { limit_of feed.old ≡ max_session_bytes }
    ensures same_source { source_name feed.new ≡ source_name feed.old }
    ensures same_limit { limit_of feed.new ≡ limit_of feed.old }
    ensures outcome { IsSessionOutcome use_as settings.side (call_of S.left S.faults feed.old feed.new) result }
    ensures settings { IfOk result (λ session. HasSettings settings session.scene) }
{
    if threads < 2 {
        return read_session_on(alloc, feed, use_as, settings);
    }
    read_by(&SideBySide { rt }, alloc, feed, use_as, settings)
}

/// Reads the planes and then the scripts, of which a maker makes a scene.
fn read_by<M: Maker, S: Source>(
    maker: &M,
    alloc: Global,
    feed: &mut Feed<S>,
    use_as: SessionUse,
    settings: SceneSettings,
) -> Result<Session, SessionFault>
    requires ready { M.ready maker.now }
    requires start { handed_of feed.old ≡ 0 }
    requires limit { limit_of feed.old ≡ max_session_bytes }
    ensures same_source { source_name feed.new ≡ source_name feed.old }
    ensures same_limit { limit_of feed.new ≡ limit_of feed.old }
    ensures outcome { IsSessionOutcome use_as settings.side (call_of S.left S.faults feed.old feed.new) result }
    ensures settings { IfOk result (λ session. HasSettings settings session.scene) }
{
    let planes = read_planes(alloc, feed, Extent::Tiled)?;
    let tiling = Tiling::new(planes.phase.width, planes.phase.height, settings.side);
    let frame = ScriptFrame::of_tiling(&tiling);
    let scripts = read_scripts(alloc, feed, use_as, &frame)?;
    let parts = SessionParts {
        phase: planes.phase,
        weights: planes.weights,
        mask: planes.mask,
        tiling,
        scripts,
    };
    made_of(maker, alloc, settings, parts)
}

/// The session of its parts.
fn made_of<M: Maker>(
    maker: &M,
    alloc: Global,
    settings: SceneSettings,
    parts: SessionParts,
) -> Result<Session, SessionFault>
    requires ready { M.ready maker.now }
    requires side { parts.tiling.side ≡ settings.side }
    ensures made { IfOk result (λ session. IsMadeOf (parts_read parts) (session_of session)) }
    ensures settings { IfOk result (λ session. HasSettings settings session.scene) }
    ensures starved { IfErr result (λ fault. fault ≡ session_faults.Memory) }
{
    let (edges, first_mask) = maker.edges_and_mask(
        alloc,
        settings.rule,
        &parts.weights,
        &parts.mask,
    );
    let edges = edges?;
    let first_mask = first_mask?;
    Ok(parts.put_together(settings, edges, first_mask))
}
