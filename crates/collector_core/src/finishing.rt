ghost use Rattle.collector_core.specs.Finishing.{Continues, DoesMore, IsLater};
ghost use Rattle.std.specs.Prelude.{◌≡◌, IfOk, None, OnOk};
ghost use Rattle.tile_board.specs.Histories.{IsComplete, next_command};

use crate::settling::settle;
use std::alloc::{AllocError, Global};
use tile_board::{Advance, AdvanceFault, Board};

/// Does what the scripts still need, one analyst after another: each script to its end. It is refused only for lack of
/// memory, and then some of it may be done.
pub fn finish(alloc: Global, board: &mut Board) -> Result<(), AllocError>
    ensures session { board.new.session ≡ board.old.session }
    ensures begins { Continues board.new.entries board.old.entries }
    ensures complete { OnOk result (IsComplete board.new.session board.new.entries) }
{
    let analysts = board.session().scripts.len() as u32;
    for analyst in 1..analysts + 1 {
        finish_script(alloc, board, analyst)?;
    }
    Ok(())
}

/// Does the rest of an analyst's script.
fn finish_script(alloc: Global, board: &mut Board, analyst: u32) -> Result<(), AllocError>
    ensures later { IsLater board.old board.new }
    ensures ended { OnOk result (next_command board.new.session board.new.entries analyst ≡ None) }
{
    while do_command(alloc, board, analyst)? {}
    Ok(())
}

/// Does an analyst's next command. False if the script is at its end.
fn do_command(alloc: Global, board: &mut Board, analyst: u32) -> Result<bool, AllocError>
    ensures later { IsLater board.old board.new }
    ensures more { IfOk result (DoesMore analyst board.old board.new) }
{
    match board.advance(alloc, analyst) {
        Ok(Advance::Revised(_) | Advance::Settled(_) | Advance::Shown(_)) => Ok(true),
        Ok(Advance::NotYet(_)) => {
            settle(alloc, board, analyst)?;
            Ok(true)
        }
        Ok(Advance::Ended) => Ok(false),
        Err(AdvanceFault::Memory) => Err(AllocError),
    }
}
