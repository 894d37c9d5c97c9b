ghost use Rattle.board_desk.specs.Answers.{IsCurrent};
ghost use Rattle.board_desk.specs.Passes.{HasNotMoved, IsAtSettle, IsLaterPass, IsPassOf};
ghost use Rattle.std.specs.Arc.{arc_value};
ghost use Rattle.std.specs.Prelude.{◌≡◌, ◌≢◌, All, IfOk, IfSome, None, OnErr, OnSome};
ghost use Rattle.std.specs.Thread.{IsSync};
ghost use Rattle.surface_snapshots.specs.Views.{parts_of};
ghost use Rattle.tile_board.specs.Histories.{IsLegal, now_of};
ghost use Rattle.tile_workers.specs.Found.{AreFoundOf};
ghost use Rattle.tile_workers.specs.Scripts.{AgreeIfCurrent, HadRegions, HasGathered, HasPublished, HasSeenMore, HasSettled, IsSurfaceOfGathered};

use crate::curator::newest;
use crate::early::{EarlyRegions, FoundRegions};
use crate::gate::Gate;
use crate::solving::Worker;
use board_desk::{Desk, Pass};
use collector_core::collect_over;
use side_by_side::for_each;
use std::alloc::{AllocError, Global};
use std::sync::Wait;
use std::thread;
use std::thread::Threads;
use surface_snapshots::Snapshot;
use tile_board::{Advance, AdvanceFault, GatherFault, Gathered, PresentMask, PublishFault};

/// Does the next command of a pass's analyst, which is to settle, and returns the revision that is published. Workers solve
/// the tiles, each in a thread of its own; if `workers` is 0, one does. It fails only for lack of memory, and then some of
/// the tiles may be solved.
pub fn settle<R: Threads + Wait + Sync, G: Gate>(
    rt: &R,
    alloc: Global,
    desk: &Desk,
    pass: &mut Pass,
    workers: u32,
    gate: &G,
) -> Result<u32, AllocError>
    requires pass { IsPassOf desk.now pass.old }
    requires next { IsAtSettle desk.now.session pass.old }
    ensures later { IsLaterPass pass.old pass.new }
    ensures settled { IfOk result (HasSettled pass.old pass.new) }
    ensures fresh { IfOk result (IsCurrent pass.old pass.new) }
    ensures unsettled { OnErr result (HasNotMoved pass.old pass.new) }
    ensures ended { pass.new.ended ≡ pass.old.ended }
{
    for _ in rt.forever() {
        match desk.advance(rt, alloc, pass).answer {
            Ok(Advance::NotYet(_)) => {}
            Ok(Advance::Settled(revision)) => return Ok(revision),
            Ok(Advance::Revised(_) | Advance::Shown(_) | Advance::Ended) => unreachable!(),
            Err(AdvanceFault::Memory) => return Err(AllocError),
        }
        if let Some(revision) = try_settle(rt, alloc, desk, pass, workers, gate)? {
            return Ok(revision);
        }
    }
    unreachable!()
}

/// Has workers solve the tiles, publishes the present revision and returns it. Returns None if nothing was published, as the
/// mask has changed meanwhile, or another analyst was faster. It fails only for lack of memory.
pub(crate) fn try_settle<R: Threads + Wait + Sync, G: Gate>(
    rt: &R,
    alloc: Global,
    desk: &Desk,
    pass: &mut Pass,
    workers: u32,
    gate: &G,
) -> Result<Option<u32>, AllocError>
    requires pass { IsPassOf desk.now pass.old }
    requires next { IsAtSettle desk.now.session pass.old }
    ensures later { IsLaterPass pass.old pass.new }
    ensures published { IfOk result (HasPublished pass.old pass.new) }
    ensures present { IfOk result (λ answer. IfSome answer (λ revision. revision ≡ now_of pass.new.seen)) }
    ensures legal { IfOk result (λ answer. OnSome answer (IsLegal desk.now.session pass.new.seen)) }
    ensures unpublished { OnErr result (HasNotMoved pass.old pass.new) }
    ensures ended { pass.new.ended ≡ pass.old.ended }
{
    let early = solve_beside(rt, alloc, desk, pass, workers, gate)?;
    publish(rt, alloc, desk, pass, workers, early)
}

/// Has workers solve the tiles. If there are several of them, one more thread finds the regions of the present mask meanwhile.
fn solve_beside<R: Threads + Wait + Sync, G: Gate>(
    rt: &R,
    alloc: Global,
    desk: &Desk,
    pass: &mut Pass,
    workers: u32,
    gate: &G,
) -> Result<Option<EarlyRegions>, AllocError>
    requires { IsPassOf desk.now pass.old }
    ensures more { HasSeenMore pass.old pass.new }
    ensures early { IfOk result (λ found. IfSome found (HadRegions desk.now.session pass.new)) }
{
    if workers < 2 {
        solve_tiles(rt, alloc, desk, pass, workers, gate)?;
        return Ok(None);
    }
    let present = desk.present_mask(rt, alloc, pass).answer?;
    let (found, solved) = solve_over(rt, alloc, desk, pass, workers, gate, &present);
    solved?;
    Ok(Some(EarlyRegions {
        found: found?,
        present,
    }))
}

/// Has workers solve the tiles, and one more thread find the regions of a mask.
fn solve_over<R: Threads + Wait + Sync, G: Gate>(
    rt: &R,
    alloc: Global,
    desk: &Desk,
    pass: &mut Pass,
    workers: u32,
    gate: &G,
    present: &PresentMask,
) -> (Result<FoundRegions, AllocError>, Result<(), AllocError>)
    requires { IsPassOf desk.now pass.old }
    ensures more { HasSeenMore pass.old pass.new }
    ensures regions { IfOk result.0 (AreFoundOf (arc_value present.now.session).scene.tiling present.now.mask) }
{
    thread::join_mut(
        rt,
        &mut || -> Result<FoundRegions, AllocError>
            ensures { IfOk result (AreFoundOf (arc_value present.entry.now.session).scene.tiling present.entry.now.mask) }
        { FoundRegions::of(alloc, &present.session.scene.tiling, &present.mask) },
        &mut || -> Result<(), AllocError>
            requires { IsSync R.row × IsPassOf desk.now pass.now }
            ensures { HasSeenMore pass.entry.now pass.exit.now }
        { solve_tiles(rt, alloc, desk, pass, workers, gate) },
    )
}

/// Has workers solve the tiles.
fn solve_tiles<R: Threads + Wait + Sync, G: Gate>(
    rt: &R,
    alloc: Global,
    desk: &Desk,
    pass: &mut Pass,
    workers: u32,
    gate: &G,
) -> Result<(), AllocError>
    requires { IsPassOf desk.now pass.old }
    ensures { HasSeenMore pass.old pass.new }
{
    let mut workers = hire(rt, alloc, desk, pass, workers)?;
    for_each(
        rt,
        &|_, worker: &mut Worker|
            requires { IsPassOf desk.now worker.old.pass }
            ensures { HasSeenMore worker.entry.now.pass worker.exit.now.pass }
        {
            worker.work(rt, alloc, desk, gate);
        },
        &mut workers,
    );
    dismiss(rt, desk, pass, workers)
}

/// Workers that have seen what a pass has: as many as `count` says, but at least one.
fn hire<R: Wait>(
    rt: &R,
    alloc: Global,
    desk: &Desk,
    pass: &mut Pass,
    count: u32,
) -> Result<Vec<Worker>, AllocError>
    requires { IsPassOf desk.now pass.old }
    ensures same { pass.new ≡ pass.old }
    ensures own { IfOk result (λ workers. All (λ worker. IsPassOf desk.now worker.pass) workers.items) }
{
    let count = count.max(1);
    let mut workers = Vec::with_capacity(alloc, count as usize)?;
    for before in 0..count {
        workers.push(Worker {
            number: before + 1,
            count,
            pass: desk.worker_pass(rt, pass),
            starved: false,
        })?;
    }
    Ok(workers)
}

/// Takes the workers' passes back. It is refused if one of them ran out of memory.
fn dismiss<R: Wait>(
    rt: &R,
    desk: &Desk,
    pass: &mut Pass,
    mut workers: Vec<Worker>,
) -> Result<(), AllocError>
    requires pass { IsPassOf desk.now pass.old }
    requires own { All (λ worker. IsPassOf desk.now worker.pass) workers.items }
    ensures { HasSeenMore pass.old pass.new }
{
    let mut starved = false;
    while let Some(worker) = workers.pop() {
        starved = starved || worker.starved;
        desk.give_back(rt, pass, worker.pass);
    }
    if starved { Err(AllocError) } else { Ok(()) }
}

/// Publishes the present revision, whose surface at most `threads` threads make, and answers it; None if that was not to be
/// done, as the mask has changed meanwhile, or another analyst was faster. The surface is made while no lock is held.
fn publish<R: Threads + Wait + Sync>(
    rt: &R,
    alloc: Global,
    desk: &Desk,
    pass: &mut Pass,
    threads: u32,
    early: Option<EarlyRegions>,
) -> Result<Option<u32>, AllocError>
    requires pass { IsPassOf desk.now pass.old }
    requires next { IsAtSettle desk.now.session pass.old }
    requires early { IfSome early (HadRegions desk.now.session pass.old) }
    ensures later { IsLaterPass pass.old pass.new }
    ensures published { IfOk result (HasPublished pass.old pass.new) }
    ensures present { IfOk result (λ answer. IfSome answer (λ revision. revision ≡ now_of pass.new.seen)) }
    ensures legal { IfOk result (λ answer. OnSome answer (IsLegal desk.now.session pass.new.seen)) }
    ensures unpublished { OnErr result (HasNotMoved pass.old pass.new) }
    ensures ended { pass.new.ended ≡ pass.old.ended }
{
    let earlier = newest(rt, desk, pass)?;
    let Some(gathered) = gather(rt, alloc, desk, pass)? else {
        return Ok(None);
    };
    let revision = gathered.revision;
    if is_of(&earlier, revision) {
        return Ok(None);
    }
    let surface = surface_of(rt, alloc, threads, earlier, gathered, early)?;
    match desk.publish_made(rt, pass, surface).answer {
        Ok(()) => Ok(Some(revision)),
        Err(PublishFault::Memory) => Err(AllocError),
        Err(PublishFault::NotSettle) => unreachable!(),
        Err(
            PublishFault::Stale(_)
            | PublishFault::Double(_)
            | PublishFault::Unready(_)
            | PublishFault::Uncertified(_),
        ) => Ok(None),
    }
}

/// Whether there is a surface, and it is of this revision.
fn is_of(surface: &Option<Snapshot>, revision: u32) -> bool {
    match surface {
        Some(surface) => surface.revision() == revision,
        None => false,
    }
}

/// The surface of what was gathered, beside an earlier one, which at most `threads` threads make.
fn surface_of<R: Threads + Sync>(
    rt: &R,
    alloc: Global,
    threads: u32,
    earlier: Option<Snapshot>,
    gathered: Gathered,
    early: Option<EarlyRegions>,
) -> Result<Snapshot, AllocError>
    requires { IfSome early (λ e. AgreeIfCurrent e gathered) }
    ensures { IfOk result (λ made. IsSurfaceOfGathered gathered (parts_of made)) }
{
    let found = regions_for(alloc, &gathered, early)?;
    let seams = collect_over(rt, threads, alloc, &gathered, found.regions(), found.plan())?;
    let packed = found.packed(alloc, &gathered.session.scene.tiling)?;
    Snapshot::build_certified(
        rt,
        threads,
        alloc,
        earlier.as_ref(),
        gathered.session,
        gathered.mask,
        packed,
        gathered.tiles,
        seams,
    )
}

/// The regions of the gathered mask: those that were found before, if they are of the same revision.
fn regions_for(
    alloc: Global,
    gathered: &Gathered,
    early: Option<EarlyRegions>,
) -> Result<FoundRegions, AllocError>
    requires { IfSome early (λ e. AgreeIfCurrent e gathered.now) }
    ensures { IfOk result (AreFoundOf (arc_value gathered.now.session).scene.tiling gathered.now.mask) }
{
    if let Some(early) = early {
        if early.present.revision == gathered.revision {
            // Their contracts say what every mask keeps.
            let _width = early.present.mask.width();
            let _width = gathered.mask.width();
            return Ok(early.found);
        }
    }
    FoundRegions::of(alloc, &gathered.session.scene.tiling, &gathered.mask)
}

/// The present revision's mask and results, as they are at the end of what the pass has then seen; None if a tile has no
/// result.
fn gather<R: Wait>(
    rt: &R,
    alloc: Global,
    desk: &Desk,
    pass: &mut Pass,
) -> Result<Option<Gathered>, AllocError>
    requires { IsPassOf desk.now pass.old }
    ensures more { HasSeenMore pass.old pass.new }
    ensures gathered { IfOk result (λ answer. IfSome answer (HasGathered desk.now.session pass.new)) }
{
    match desk.gather(rt, alloc, pass).answer {
        Ok(gathered) => Ok(Some(gathered)),
        Err(GatherFault::Unready(_)) => Ok(None),
        Err(GatherFault::Memory) => Err(AllocError),
    }
}
