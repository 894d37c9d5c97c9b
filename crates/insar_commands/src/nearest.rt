ghost use Rattle.grid_writer.specs.Grids.{grid_of};
ghost use Rattle.grid_writer.specs.ManyGrids.{AreGrids, HasGridsCause, text_of_grids};
ghost use Rattle.insar_ports.specs.Calls.{Takes, call_of};
ghost use Rattle.insar_ports.specs.Feeding.{limit_of, source_name};
ghost use Rattle.insar_commands.specs.Causes.{HasReadCause};
ghost use Rattle.insar_commands.specs.Ends.{IsRequestEnd};
ghost use Rattle.insar_commands.specs.Nearest.{AreSessionAndGrid, BreaksNearest, HasNearest};
ghost use Rattle.insar_commands.specs.Run.{ReadsAll, run_of};
ghost use Rattle.insar_words.specs.declared.request.Request.TheVariants as requests;
ghost use Rattle.session_script.specs.Sessions.{session_of};
ghost use Rattle.std.specs.Prelude.{◌≡◌, ◌∷◌, [], ℕ, IfErr, IfOk};

use crate::both::read_first;
use crate::ends::end_of;
use crate::grids::MAX_GRIDS_BYTES;
use answer_lines::Refusal;
use edge_weights::SceneSettings;
use grid_writer::{Grid, GridsFault, read_grids, write_values};
use insar_ports::{Feed, Sink, Source};
use nearest_surface::bring_nearest;
use raster_model::{DEFAULT_TILE_SIDE, MAX_SESSION_BYTES, RuleKind, Session};
use std::alloc::Global;

/// Reads a session, whose scripts are not run, and then a grid, writes the surface of the session's phase that is nearest to
/// it under the first mask, and answers the status 0.
pub fn run_nearest<S: Source, K: Sink>(
    alloc: Global,
    source: &mut S,
    sink: &mut K,
) -> Result<u8, Refusal>
    ensures { IsRequestEnd requests.Nearest (run_of S.left S.faults source.old source.new K.held K.faults sink.old sink.new) result }
{
    let output = read_nearest(alloc, source)?;
    end_of(write_values(&output, sink), 0)
}

/// Reads a session and then a grid, and gives the surface that is nearest to it.
fn read_nearest<S: Source>(alloc: Global, source: &mut S) -> Result<Grid, Refusal>
    ensures read { IfOk result (λ output. ReadsAll (S.left source.old) (S.left source.new) (λ bytes. HasNearest bytes (grid_of output))) }
    ensures refused { IfErr result (HasReadCause BreaksNearest (S.left source.old) (S.faults source.old) (S.faults source.new)) }
{
    let (session, given) = read_both(alloc, source)?;
    let output = bring_nearest(&session.scene.phase, &session.first_mask, given)?;
    Ok(output)
}

/// Reads the session and the grid that a source gives one after the other.
fn read_both<S: Source>(alloc: Global, source: &mut S) -> Result<(Session, Grid), Refusal>
    ensures read { IfOk result (λ both. ReadsAll (S.left source.old) (S.left source.new) (λ bytes. AreSessionAndGrid bytes (session_of both.0) (grid_of both.1))) }
    ensures refused { IfErr result (HasReadCause BreaksNearest (S.left source.old) (S.faults source.old) (S.faults source.new)) }
{
    let mut feed = Feed::new(alloc, source, MAX_SESSION_BYTES)?;
    let scene = SceneSettings::plain(DEFAULT_TILE_SIDE, RuleKind::Least);
    let session = read_first(alloc, &mut feed, scene, MAX_GRIDS_BYTES)?;
    let given = read_last_grid(alloc, &mut feed)?;
    Ok((session, given))
}

/// Reads the one grid that a feed gives to its end.
fn read_last_grid<S: Source>(alloc: Global, feed: &mut Feed<S>) -> Result<Grid, GridsFault>
    ensures same_source { source_name feed.new ≡ source_name feed.old }
    ensures same_limit { limit_of feed.new ≡ limit_of feed.old }
    ensures read { IfOk result (λ grid. Takes (call_of S.left S.faults feed.old feed.new) (λ text rest. (text ≡ text_of_grids (grid_of grid ∷ [])) × (rest ≡ []))) }
    ensures fits { IfOk result (λ grid. (width height : ℕ) × AreGrids 1 width height (grid_of grid ∷ [])) }
    ensures refused { IfErr result (HasGridsCause 1 (call_of S.left S.faults feed.old feed.new)) }
{
    let mut grids = read_grids(alloc, feed, 1)?;
    match grids.pop() {
        Some(grid) => Ok(grid),
        None => unreachable!(),
    }
}
