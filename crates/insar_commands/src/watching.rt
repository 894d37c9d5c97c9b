ghost use Rattle.board_desk.specs.Passes.{IsPassOf};
ghost use Rattle.insar_commands.specs.Desks.{AreFirst, HaveRun};
ghost use Rattle.insar_commands.specs.Watch.{IsFresh, IsReady, IsWatchOf, KeptLast, all_seen};
ghost use Rattle.reader_desk.specs.Fronts.{last_revision};
ghost use Rattle.std.specs.Prelude.{◌≡◌, ℕ, All, Contains, IfOk, None, OnOk, Some, length};
ghost use Rattle.surface_snapshots.specs.Views.{parts_of};
ghost use Rattle.tile_board.specs.Histories.{IsLegal, published_in};
ghost use Rattle.answer_lines.specs.WatchLines.{last_in};

use crate::board::{closed, opened};
use board_desk::{Desk, Pass};
use insar_words::Watching;
use raster_model::Session;
use reader_desk::{Shelf, ShelfReader, ShelfWriter};
use std::alloc::{AllocError, Global};
use std::sync::Wait;
use std::thread::Threads;
use surface_snapshots::Snapshot;
use tile_board::Board;
use tile_workers::{Curator, Gate, Watcher, run_watched};

/// Runs the scripts of a session beside watchers of what is published, and tells each of the last publication at the end. It
/// gives the published revisions in their order, and the watchers. It fails only for lack of memory.
pub fn watch_session<R: Threads + Wait + Sync, G: Gate>(
    rt: &R,
    alloc: Global,
    session: Session,
    watching: Watching,
    gate: &G,
) -> Result<(Vec<u32>, Vec<Watcher>), AllocError>
    ensures { IfOk result (λ made. IsWatchOf session watching.readers made.0.items (all_seen made.0.items made.1.items)) }
{
    let (desk, passes) = opened(alloc, session)?;
    let (writer, readers) = Shelf::open(rt, alloc, watching.readers)?;
    match hired(alloc, &writer, readers, watching.reads) {
        Ok(watchers) => watched(rt, alloc, desk, passes, writer, watchers, watching, gate),
        Err(AllocError) => {
            writer.close(rt);
            Err(AllocError)
        }
    }
}

/// A watcher for each reader of a shelf, which reads so many times.
fn hired(
    alloc: Global,
    writer: &ShelfWriter,
    mut readers: Vec<ShelfReader>,
    reads: u32,
) -> Result<Vec<Watcher>, AllocError>
    requires { All (λ reader. reader ≡ writer.now) readers.items }
    ensures fresh { IfOk result (λ watchers. All (IsFresh writer.now.shelf reads) watchers.items) }
    ensures count { IfOk result (λ watchers. length watchers.items ≡ length readers.items) }
{
    let mut watchers = Vec::with_capacity(alloc, readers.len())?;
    while let Some(reader) = readers.pop() {
        watchers.push(Watcher::new(alloc, reader, reads)?)?;
    }
    Ok(watchers)
}

/// Runs the scripts of a desk's analysts beside a curator and watchers.
fn watched<R: Threads + Wait + Sync, G: Gate>(
    rt: &R,
    alloc: Global,
    desk: Desk,
    mut passes: Vec<Pass>,
    writer: ShelfWriter,
    mut watchers: Vec<Watcher>,
    watching: Watching,
    gate: &G,
) -> Result<(Vec<u32>, Vec<Watcher>), AllocError>
    requires passes { AreFirst desk passes.items }
    requires watchers { All (IsFresh writer.shelf watching.reads) watchers.items }
    ensures { IfOk result (λ made. IsWatchOf desk.session (length watchers.items) made.0.items (all_seen made.0.items made.1.items)) }
{
    let mut curator = curator_of(rt, &desk, passes.as_mut_slice(), writer);
    let run = run_watched(
        rt,
        alloc,
        &desk,
        passes.as_mut_slice(),
        watching.settings.workers,
        gate,
        &mut curator,
        watchers.as_mut_slice(),
        watching.reads,
    );
    let (pass, writer) = curator.into_parts();
    match run {
        Ok(()) => told(rt, alloc, desk, passes, pass, writer, watchers),
        Err(AllocError) => {
            writer.close(rt);
            Err(AllocError)
        }
    }
}

/// A curator of a desk, with the writer of a shelf.
fn curator_of<R: Wait>(rt: &R, desk: &Desk, passes: &mut [Pass], writer: ShelfWriter) -> Curator
    requires { AreFirst desk.now passes.old }
    ensures same { passes.new ≡ passes.old }
    ensures pass { IsPassOf desk.now result.pass × (result.pass.analyst ≡ None) }
    ensures shelf { result.shelf ≡ writer }
{
    Curator::new(desk.worker_pass(rt, &mut passes[0]), writer)
}

/// Closes a desk whose analysts are done, and tells each watcher of the last publication.
fn told<R: Wait>(
    rt: &R,
    alloc: Global,
    desk: Desk,
    mut passes: Vec<Pass>,
    pass: Pass,
    mut writer: ShelfWriter,
    mut watchers: Vec<Watcher>,
) -> Result<(Vec<u32>, Vec<Watcher>), AllocError>
    requires run { HaveRun desk passes.items }
    requires pass { IsPassOf desk pass × (pass.analyst ≡ None) }
    requires watchers { All (IsReady writer.shelf) watchers.items }
    ensures { IfOk result (λ made. IsWatchOf desk.session (length watchers.items) made.0.items (all_seen made.0.items made.1.items)) }
{
    give_back(rt, &desk, passes.as_mut_slice(), pass);
    let board = closed(rt, desk, passes);
    let told = tell_last(rt, &board, &mut writer, watchers.as_mut_slice());
    writer.close(rt);
    told?;
    Ok((published_on(alloc, &board)?, watchers))
}

/// The first analyst's pass takes a worker's pass back.
fn give_back<R: Wait>(rt: &R, desk: &Desk, passes: &mut [Pass], worker: Pass)
    requires run { HaveRun desk.now passes.old }
    requires worker { IsPassOf desk.now worker × (worker.analyst ≡ None) }
    ensures { HaveRun desk.now passes.new }
{
    let first = &mut passes[0];
    desk.give_back(rt, first, worker);
    let _ended = first.ended();
}

/// The published revisions of a board, in their order.
fn published_on(alloc: Global, board: &Board) -> Result<Vec<u32>, AllocError>
    ensures published { IfOk result (λ revisions. revisions.items ≡ published_in board.now.entries) }
    ensures legal { IsLegal board.now.session board.now.entries }
{
    let snapshots = board.snapshots();
    let mut revisions = Vec::with_capacity(alloc, snapshots.len())?;
    for snapshot in snapshots {
        revisions.push(snapshot.revision())?;
    }
    Ok(revisions)
}

/// Places the last publication of a board, if that was not done yet, and tells each watcher of it.
fn tell_last<R: Wait>(
    rt: &R,
    board: &Board,
    writer: &mut ShelfWriter,
    watchers: &mut [Watcher],
) -> Result<(), AllocError>
    requires { All (IsReady writer.old.shelf) watchers.old }
    ensures { OnOk result (All (KeptLast (published_in board.now.entries)) watchers.new) }
{
    place_last(rt, board, writer)?;
    tell_all(writer, watchers)
}

/// Places the last publication of a board, if there is one and it is not the last that was placed.
fn place_last<R: Wait>(rt: &R, board: &Board, writer: &mut ShelfWriter) -> Result<(), AllocError>
    ensures same { writer.new.shelf ≡ writer.old.shelf }
    ensures placed { OnOk result ((last : ℕ) → last_in (published_in board.now.entries) ≡ Some last → last_revision writer.new.surfaces ≡ Some last) }
{
    match board.snapshots().last() {
        Some(last) => place_anew(rt, writer, last),
        None => Ok(()),
    }
}

/// Places a surface whose revision is not the last that was placed.
fn place_anew<R: Wait>(
    rt: &R,
    writer: &mut ShelfWriter,
    surface: &Snapshot,
) -> Result<(), AllocError>
    ensures same { writer.new.shelf ≡ writer.old.shelf }
    ensures placed { OnOk result (last_revision writer.new.surfaces ≡ Some (parts_of surface.now).seams.revision) }
{
    if writer.last_placed() == Some(surface.revision()) {
        return Ok(());
    }
    writer.place(rt, surface.share()?)
}

/// Tells each watcher what was placed.
fn tell_all(writer: &ShelfWriter, watchers: &mut [Watcher]) -> Result<(), AllocError>
    requires { All (IsReady writer.now.shelf) watchers.old }
    ensures { OnOk result (All (λ w. (last : ℕ) → last_revision writer.now.surfaces ≡ Some last → Contains w.revisions last) watchers.new) }
{
    for watcher in watchers.iter_mut() {
        watcher.finish(writer.tell()?);
    }
    Ok(())
}
