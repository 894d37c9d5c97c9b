ghost use Rattle.board_desk.specs.Passes.{HaveAnalysts, IsPassOf, first_passes};
ghost use Rattle.insar_commands.specs.Desks.{HaveRun};
ghost use Rattle.std.specs.Prelude.{◌≡◌, All, IfOk, length};
ghost use Rattle.tile_board.specs.Histories.{IsComplete};

use board_desk::{Desk, Pass};
use raster_model::Session;
use std::alloc::{AllocError, Global};
use std::sync::{Arc, Wait};
use std::thread::Threads;
use tile_board::Board;
use tile_workers::{Gate, run_scripts};

/// The board of a session on which every script is done. Analysts and workers run over a desk, which is then closed. It is
/// refused only for lack of memory.
pub fn finished<R: Threads + Wait + Sync, G: Gate>(
    rt: &R,
    alloc: Global,
    session: Session,
    workers: u32,
    gate: &G,
) -> Result<Board, AllocError>
    ensures session { IfOk result (λ board. board.session ≡ session) }
    ensures complete { IfOk result (λ board. IsComplete board.session board.entries) }
{
    let (desk, mut passes) = opened(alloc, session)?;
    run_scripts(rt, alloc, &desk, passes.as_mut_slice(), workers, gate)?;
    Ok(closed(rt, desk, passes))
}

/// A desk over the board of a session, before its first entry, with the passes of the analysts.
pub fn opened(alloc: Global, session: Session) -> Result<(Desk, Vec<Pass>), AllocError>
    ensures session { IfOk result (λ made. made.0.session ≡ session) }
    ensures passes { IfOk result (λ made. made.1.items ≡ first_passes made.0 (length session.scripts.items)) }
    ensures own { IfOk result (λ made. All (IsPassOf made.0) made.1.items) }
    ensures analysts { IfOk result (λ made. HaveAnalysts made.1.items) }
{
    Desk::open(alloc, Board::new(alloc, Arc::new(alloc, session)?)?)
}

/// The board of a desk whose analysts have run their scripts to the end.
pub fn closed<R: Wait>(rt: &R, desk: Desk, passes: Vec<Pass>) -> Board
    requires { HaveRun desk passes.items }
    ensures session { result.session ≡ desk.session }
    ensures complete { IsComplete result.session result.entries }
{
    desk.close(rt, passes)
}
