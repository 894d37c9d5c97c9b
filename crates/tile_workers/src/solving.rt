ghost use Rattle.board_desk.specs.Passes.{IsPassOf};
ghost use Rattle.std.specs.Prelude.{◌≡◌, All, None};
ghost use Rattle.tile_board.specs.Calls.{WasGoodAt};
ghost use Rattle.tile_workers.specs.Scripts.{HasClaimed, HasSeenMore};

use crate::gate::Gate;
use board_desk::{Desk, Pass};
use certificates::TileResult;
use std::alloc::{AllocError, Global};
use std::sync::Wait;
use tile_board::{ClaimFault, Ticket};
use tile_solver::solve_tile;

/// The most tiles that a worker claims at once.
const MOST_AT_ONCE: u32 = 64;

/// Into how many parts for each worker the tiles that lack a result are divided. A worker claims one part at once, so the
/// shares shrink towards the end, and no worker is left with many tiles while the others have none.
const PARTS_A_WORKER: u32 = 2;

/// A worker of a settle command.
#[derive(Drop)]
pub(crate) struct Worker {
    /// From 1.
    pub(crate) number: u32,
    /// How many workers there are.
    pub(crate) count: u32,
    pub(crate) pass: Pass,
    /// Whether it ran out of memory.
    pub(crate) starved: bool,
    pub(crate) ghost unnamed: { pass.analyst ≡ None },
}

impl Worker {
    /// Solves tiles until every tile has a kept result, or there is no memory.
    pub(crate) fn work<R: Wait, G: Gate>(&mut self, rt: &R, alloc: Global, desk: &Desk, gate: &G)
        requires { IsPassOf desk.now self.old.pass }
        ensures { HasSeenMore self.old.pass self.new.pass }
    {
        let parts = self.count.saturating_mul(PARTS_A_WORKER);
        let solved = solve_all(rt, alloc, desk, &mut self.pass, self.number, parts, gate);
        self.starved = solved.is_err();
    }
}

/// Solves tiles until every tile has a kept result.
fn solve_all<R: Wait, G: Gate>(
    rt: &R,
    alloc: Global,
    desk: &Desk,
    pass: &mut Pass,
    number: u32,
    parts: u32,
    gate: &G,
) -> Result<(), AllocError>
    requires { IsPassOf desk.now pass.old }
    ensures { HasSeenMore pass.old pass.new }
{
    for _ in rt.forever() {
        match desk
            .claim_share(rt, alloc, pass, parts, MOST_AT_ONCE)
            .answer
        {
            Ok(tickets) => solve_share(rt, alloc, desk, pass, number, gate, &tickets)?,
            Err(ClaimFault::NoJob) => return Ok(()),
            Err(ClaimFault::Memory) => return Err(AllocError),
        }
    }
    unreachable!()
}

/// Solves the tiles of tickets, and hands all results in at once. If there is no memory to solve one, those before it are
/// handed in all the same. A result may come too late: the tile's mask has changed, or another worker was faster.
fn solve_share<R: Wait, G: Gate>(
    rt: &R,
    alloc: Global,
    desk: &Desk,
    pass: &mut Pass,
    number: u32,
    gate: &G,
    tickets: &[Ticket],
) -> Result<(), AllocError>
    requires pass { IsPassOf desk.now pass.old }
    requires claimed { All (HasClaimed desk.now.session pass.old) tickets.now }
    ensures { HasSeenMore pass.old pass.new }
{
    let mut results = Vec::new(alloc);
    let solved = solve_each(alloc, desk, pass, number, gate, tickets, &mut results);
    let kept = desk.keep_all(rt, alloc, pass, results).answer;
    solved?;
    kept
}

/// Solves the tiles of tickets one after another, holding no lock, until there is no memory. Each result is good at the point
/// of the history at which the tiles were claimed.
fn solve_each<G: Gate>(
    alloc: Global,
    desk: &Desk,
    pass: &Pass,
    number: u32,
    gate: &G,
    tickets: &[Ticket],
    results: &mut Vec<TileResult>,
) -> Result<(), AllocError>
    requires claimed { All (HasClaimed desk.now.session pass.now) tickets.now }
    requires good { All (WasGoodAt desk.now.session pass.now.seen) results.old.items }
    ensures { All (WasGoodAt desk.now.session pass.now.seen) results.new.items }
{
    for ticket in tickets {
        gate.enter(number);
        let scene = &ticket.session.scene;
        let solved = solve_tile(alloc, scene, ticket.tile, ticket.stamp, &ticket.unmasked)?;
        results.push(solved)?;
    }
    Ok(())
}
