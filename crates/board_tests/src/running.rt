ghost use Rattle.board_desk.specs.Passes.{HaveAnalysts, IsPassOf};
ghost use Rattle.std.specs.Prelude.{◌≢◌, ◌≤◌, All, None};

use board_desk::{Desk, Pass};
use raster_model::{MAX_TILE_SIDE, MIN_TILE_SIDE};
use std::alloc::{AllocError, Global};
use std::process::Abort;
use std::sync::Wait;
use std::thread::Threads;
use tile_board::Board;
use tile_workers::{OpenGate, run_scripts};
use worked_scenes::board;

/// The desk of a session's text, and the passes of its analysts.
pub fn open_desk(rt: &impl Abort, alloc: Global, side: u32, text: &str) -> (Desk, Vec<Pass>)
    requires { (MIN_TILE_SIDE ≤ side) × (side ≤ MAX_TILE_SIDE) }
    ensures own { All (IsPassOf result.0) result.1.items }
    ensures analysts { HaveAnalysts result.1.items }
{
    let board = board(alloc, text, side).expect(rt, "a session");
    Desk::open(alloc, board).expect(rt, "memory")
}

/// The last of the passes, which is this analyst's.
pub fn last_of(rt: &impl Abort, _desk: &Desk, passes: &mut Vec<Pass>, analyst: u32) -> Pass
    requires own { All (IsPassOf _desk.now) passes.old.items }
    requires analysts { HaveAnalysts passes.old.items }
    ensures own { IsPassOf _desk.now result }
    ensures named { result.analyst ≢ None }
    ensures rest { All (IsPassOf _desk.now) passes.new.items }
    ensures others { HaveAnalysts passes.new.items }
{
    let pass = passes.pop().expect(rt, "a pass for each analyst");
    assert!(rt; pass.analyst() == Some(analyst));
    pass
}

/// The board of a desk that is closed with two passes.
pub fn closed<R: Wait>(
    rt: &R,
    alloc: Global,
    desk: Desk,
    one: Pass,
    two: Pass,
) -> Result<Board, AllocError>
    requires one { IsPassOf desk one }
    requires two { IsPassOf desk two }
{
    Ok(desk.close(rt, vec![in alloc; one, two]?))
}

/// The same, after the scripts of both were run to their ends.
pub fn run_out<R: Threads + Wait + Sync>(
    rt: &R,
    alloc: Global,
    desk: Desk,
    one: Pass,
    two: Pass,
) -> Result<Board, AllocError>
    requires one { IsPassOf desk one }
    requires two { IsPassOf desk two }
    requires first { one.analyst ≢ None }
    requires second { two.analyst ≢ None }
{
    let mut passes = vec![in alloc; one, two]?;
    run_scripts(rt, alloc, &desk, passes.as_mut_slice(), 2, &OpenGate)?;
    Ok(desk.close(rt, passes))
}
