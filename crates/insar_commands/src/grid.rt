ghost use Rattle.insar_commands.specs.Ends.{IsRequestEnd};
ghost use Rattle.insar_commands.specs.Grid.{IsSurfaceGrid, last_grid, last_surface};
ghost use Rattle.insar_commands.specs.Run.{run_of};
ghost use Rattle.insar_words.specs.declared.request.Request.TheVariants as requests;
ghost use Rattle.report_text.specs.Certified.{IsCertifiedReport};
ghost use Rattle.report_text.specs.Reports.{report_of};
ghost use Rattle.text_lines.specs.Adding.{Puts};
ghost use Rattle.tile_board.specs.Histories.{IsComplete};

use crate::board::finished;
use crate::ends::end_of;
use crate::pages::pages_for;
use crate::session::read_given;
use answer_lines::Refusal;
use grid_writer::write_grid_side_by_side;
use insar_ports::{Sink, Source, WriteFault};
use insar_words::Settings;
use std::alloc::Global;
use std::sync::Wait;
use std::thread::Threads;
use text_pages::Pages;
use tile_board::Board;
use tile_workers::Gate;

/// Reads a session, runs its scripts as the words set it, writes only the grid of the last published surface, or nothing if
/// none was published, and answers the status 0.
pub fn run_grid<R: Threads + Wait + Sync, S: Source, K: Sink, G: Gate>(
    rt: &R,
    alloc: Global,
    settings: Settings,
    source: &mut S,
    sink: &mut K,
    gate: &G,
) -> Result<u8, Refusal>
    ensures { IsRequestEnd (requests.Grid settings) (run_of S.left S.faults source.old source.new K.held K.faults sink.old sink.new) result }
{
    let session = read_given(rt, alloc, source, settings)?;
    let board = finished(rt, alloc, session, settings.workers, gate)?;
    let mut pages = pages_for(rt, alloc, &board.session().scene.phase, settings.workers)?;
    end_of(write_last_grid(rt, &mut pages, &board, sink), 0)
}

/// Writes the grid of the newest published surface, if there is one.
#[tactic(auto, using(report_text::proofs::CertifiedLemmas::board_is_certified))]
fn write_last_grid<R: Threads + Sync, K: Sink>(
    rt: &R,
    pages: &mut Pages,
    board: &Board,
    sink: &mut K,
) -> Result<(), WriteFault>
    ensures put { Puts (K.held sink.old) (K.faults sink.old) (K.held sink.new) (K.faults sink.new) (last_grid (report_of board.now.session board.now.entries board.now.surfaces)) result }
    ensures ranges { IsSurfaceGrid board.now.session.scene.phase.width board.now.session.scene.phase.height (last_surface (report_of board.now.session board.now.entries board.now.surfaces)) }
    ensures certified { IsComplete board.now.session board.now.entries → IsCertifiedReport board.now.session (report_of board.now.session board.now.entries board.now.surfaces) }
{
    match board.snapshots().last() {
        Some(snapshot) => write_grid_side_by_side(rt, pages, snapshot, sink),
        None => Ok(()),
    }
}
