ghost use Rattle.insar_ports.specs.Calls.{call_of};
ghost use Rattle.insar_ports.specs.Feeding.{handed_of, limit_of, source_name};
ghost use Rattle.session_script.specs.Building.{whole_parts_read};
ghost use Rattle.session_script.specs.Layouts.{max_whole_session_bytes};
ghost use Rattle.session_script.specs.Making.{IsMadeOf};
ghost use Rattle.session_script.specs.Outcomes.{IsWholeOutcome};
ghost use Rattle.session_script.specs.Sessions.{whole_session_of};
ghost use Rattle.session_script.specs.declared.fault.SessionFault.TheVariants as session_faults;
ghost use Rattle.std.specs.Prelude.{◌≡◌, IfErr, IfOk};

use crate::fault::SessionFault;
use crate::frame::ScriptFrame;
use crate::maker::{Maker, OneThread, SideBySide};
use crate::planes::read_planes;
use crate::script::read_scripts;
use crate::session_use::SessionUse;
use edge_weights::{WholeParts, WholeSession};
use insar_ports::{Feed, Source};
use pgm_planes::Extent;
use raster_model::{RuleKind, Terms};
use std::alloc::Global;
use std::thread::Threads;

/// The greatest number of bytes of a session's text that is read without tiles.
pub const MAX_WHOLE_SESSION_BYTES: u64 = 4_294_967_296;

/// Reads a session from the start of a source as `read_session` does, without tiles: its raster may have sides up to
/// `MAX_SIDE` and up to `MAX_PIXELS` pixels. Its scripts are read and never run, so no settle or change command is too much.
/// If `threads` is 2 or more, two more threads weigh the edges while the caller's makes the mask.
///
/// After a refusal the feed is where it was met, and the caller ends.
pub fn read_whole_session<R: Threads + Sync, S: Source>(
    rt: &R,
    threads: u32,
    alloc: Global,
    feed: &mut Feed<S>,
    use_as: SessionUse,
    rule: RuleKind,
    terms: Terms,
) -> Result<WholeSession, SessionFault>
    requires start { handed_of feed.old ≡ 0 }
    requires limit { limit_of feed.old ≡ max_whole_session_bytes }
    ensures same_source { source_name feed.new ≡ source_name feed.old }
    ensures same_limit { limit_of feed.new ≡ limit_of feed.old }
    // What is spelled so is read, and what has a fault is refused with it.
    ensures outcome { IsWholeOutcome use_as (call_of S.left S.faults feed.old feed.new) result }
    ensures rule { IfOk result (λ session. session.scene.rule ≡ rule) }
    ensures terms { IfOk result (λ session. session.scene.terms ≡ terms) }
{
    if threads < 2 {
        return read_by(&OneThread, alloc, feed, use_as, rule, terms);
    }
    read_by(&SideBySide { rt }, alloc, feed, use_as, rule, terms)
}

/// Reads the planes and then the scripts, of which a maker makes a session.
fn read_by<M: Maker, S: Source>(
    maker: &M,
    alloc: Global,
    feed: &mut Feed<S>,
    use_as: SessionUse,
    rule: RuleKind,
    terms: Terms,
) -> Result<WholeSession, SessionFault>
    requires ready { M.ready maker.now }
    requires start { handed_of feed.old ≡ 0 }
    requires limit { limit_of feed.old ≡ max_whole_session_bytes }
    ensures same_source { source_name feed.new ≡ source_name feed.old }
    ensures same_limit { limit_of feed.new ≡ limit_of feed.old }
    ensures outcome { IsWholeOutcome use_as (call_of S.left S.faults feed.old feed.new) result }
    ensures rule { IfOk result (λ session. session.scene.rule ≡ rule) }
    ensures terms { IfOk result (λ session. session.scene.terms ≡ terms) }
{
    let planes = read_planes(alloc, feed, Extent::Whole)?;
    let frame = ScriptFrame::of_whole(planes.phase.width, planes.phase.height);
    let scripts = read_scripts(alloc, feed, use_as, &frame)?;
    let parts = WholeParts {
        phase: planes.phase,
        weights: planes.weights,
        mask: planes.mask,
        scripts,
    };
    made_of(maker, alloc, rule, terms, parts)
}

/// The session of its parts.
fn made_of<M: Maker>(
    maker: &M,
    alloc: Global,
    rule: RuleKind,
    terms: Terms,
    parts: WholeParts,
) -> Result<WholeSession, SessionFault>
    requires ready { M.ready maker.now }
    ensures made { IfOk result (λ session. IsMadeOf (whole_parts_read parts) (whole_session_of session)) }
    ensures rule { IfOk result (λ session. session.scene.rule ≡ rule) }
    ensures terms { IfOk result (λ session. session.scene.terms ≡ terms) }
    ensures starved { IfErr result (λ fault. fault ≡ session_faults.Memory) }
{
    let (edges, first_mask) = maker.edges_and_mask(alloc, rule, &parts.weights, &parts.mask);
    let edges = edges?;
    let first_mask = first_mask?;
    Ok(parts.put_together(rule, terms, edges, first_mask))
}
