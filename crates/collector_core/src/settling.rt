ghost use Rattle.certificates.specs.declared.verdicts.SeamVerdict.TheVariants.{Good};
ghost use Rattle.certificates.specs.Results.{IsGoodTile};
ghost use Rattle.collector_core.specs.Finishing.{IsLater, KeepsMore, OnlyKept, commands_left};
ghost use Rattle.std.specs.Prelude.{◌≡◌, ◌≢◌, ◌<◌, Bool, IfOk, OnErr, OnOk, Some};
ghost use Rattle.surface_snapshots.specs.Parts.{Parts};
ghost use Rattle.surface_snapshots.specs.Verdicts.{IsPartsVerdict};
ghost use Rattle.tile_board.specs.Calls.{
  ArePublishable,
  IsClaim,
  IsGathering,
  IsKeep,
  IsPublication,
  MayKeep,
  MayPublish,
  MaySettle,
  mask_now,
};
ghost use Rattle.tile_board.specs.Histories.{AreAllKept, newest_of, now_of};

use crate::collecting::collect;
use certificates::{SeamResult, TileResult};
use std::alloc::{AllocError, Global};
use surface_snapshots::laws::verdict_is_unique;
use tile_board::{Board, ClaimFault, GatherFault, Gathered, KeepFault, PublishFault, Ticket};
use tile_solver::solve_tile;

/// Does an analyst's settle command, whose revision is not published: solves the tiles that are not kept, and publishes.
pub fn settle(alloc: Global, board: &mut Board, analyst: u32) -> Result<(), AllocError>
    requires settles { MaySettle board.old analyst }
    requires fresh { newest_of board.old.entries ≢ Some (now_of board.old.entries) }
    ensures later { IsLater board.old board.new }
    ensures done { OnOk result (commands_left analyst board.new < commands_left analyst board.old) }
{
    solve_all(alloc, board)?;
    let gathered = gather(alloc, board)?;
    let seams = collect(alloc, &gathered)?;
    publish(alloc, board, analyst, seams)
}

/// Solves each tile that is not kept, and keeps the results.
fn solve_all(alloc: Global, board: &mut Board) -> Result<(), AllocError>
    ensures only { OnlyKept board.old board.new }
    ensures all { OnOk result (AreAllKept board.new.session board.new.entries) }
{
    while solve_one(alloc, board)? {}
    Ok(())
}

/// Solves a tile that is not kept, and keeps the result. False if every tile is kept.
fn solve_one(alloc: Global, board: &mut Board) -> Result<bool, AllocError>
    ensures only { OnlyKept board.old board.new }
    ensures more { IfOk result (KeepsMore board.old board.new) }
{
    match board.claim(alloc) {
        Ok(ticket) => {
            solve(alloc, board, &ticket)?;
            Ok(true)
        }
        Err(ClaimFault::NoJob) => Ok(false),
        Err(ClaimFault::Memory) => Err(AllocError),
    }
}

/// Solves the tile of a ticket, and keeps the result.
fn solve(alloc: Global, board: &mut Board, ticket: &Ticket) -> Result<(), AllocError>
    requires { IsClaim board.old ticket.now }
    ensures only { OnlyKept board.old board.new }
    ensures more { OnOk result (KeepsMore board.old board.new Bool.true) }
{
    let scene = &ticket.session.scene;
    let solved = solve_tile(alloc, scene, ticket.tile, ticket.stamp, &ticket.unmasked)?;
    keep(alloc, board, solved)
}

/// Keeps a good result that may be kept.
fn keep(alloc: Global, board: &mut Board, solved: TileResult) -> Result<(), AllocError>
    requires may { MayKeep board.old solved }
    requires good { IsGoodTile board.old.session.scene (mask_now board.old) solved }
    ensures kept { OnOk result (IsKeep board.old board.new solved) }
    ensures unchanged { OnErr result (board.new ≡ board.old) }
{
    match board.keep_solved(alloc, solved) {
        Ok(()) => Ok(()),
        Err(KeepFault::Memory) => Err(AllocError),
        Err(
            KeepFault::Stranger(_)
            | KeepFault::Stale(_)
            | KeepFault::Double
            | KeepFault::Uncertified(_),
        ) => unreachable!(),
    }
}

/// Gathers the results of all tiles.
fn gather(alloc: Global, board: &Board) -> Result<Gathered, AllocError>
    requires { AreAllKept board.now.session board.now.entries }
    ensures { IfOk result (IsGathering board.now) }
{
    match board.gather(alloc) {
        Ok(gathered) => Ok(gathered),
        Err(GatherFault::Memory) => Err(AllocError),
        Err(GatherFault::Unready(_)) => unreachable!(),
    }
}

/// Publishes offsets that certify whatever is published with them.
fn publish(
    alloc: Global,
    board: &mut Board,
    analyst: u32,
    seams: SeamResult,
) -> Result<(), AllocError>
    requires may { MayPublish board.old analyst seams }
    requires certify { (p : Parts) → ArePublishable board.old seams p → IsPartsVerdict p Good }
    ensures published { OnOk result (IsPublication board.old board.new analyst seams) }
    ensures unchanged { OnErr result (board.new ≡ board.old) }
{
    // No other verdict can be told of what is certified.
    verdict_is_unique();
    match board.publish(alloc, analyst, seams) {
        Ok(()) => Ok(()),
        Err(PublishFault::Memory) => Err(AllocError),
        Err(
            PublishFault::NotSettle
            | PublishFault::Stale(_)
            | PublishFault::Double(_)
            | PublishFault::Unready(_)
            | PublishFault::Uncertified(_),
        ) => unreachable!(),
    }
}
