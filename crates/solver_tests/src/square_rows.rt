ghost use Rattle.std.specs.Prelude.{◌≤◌};

use certificates::SeamResult;
use collector_core::collect_from;
use offset_guess::Guess;
use raster_model::{MAX_TILE_SIDE, MIN_TILE_SIDE};
use std::alloc::Global;
use std::process::Abort;
use tile_board::Board;
use worked_scenes::{board, tile_result};

/// The board of a text in so many tiles of a side, which keeps for each of them a result without cycles and faces.
pub(crate) fn flat_board(rt: &impl Abort, alloc: Global, text: &str, side: u32, tiles: u32) -> Board
    requires { (MIN_TILE_SIDE ≤ side) × (side ≤ MAX_TILE_SIDE) }
{
    let cells = (side - 1) as usize;
    let cycles = vec![in alloc; 0; (cells + 1) * (cells + 1)].expect(rt, "memory");
    let faces = vec![in alloc; 0; cells * cells].expect(rt, "memory");
    let mut board = board(alloc, text, side).expect(rt, "a session");
    for tile in 0..tiles {
        let result = tile_result(alloc, tile, 0, &cycles, &faces).expect(rt, "memory");
        board.keep(alloc, result).expect(rt, "a good result");
    }
    board
}

/// A sample so many times.
pub(crate) fn samples(rt: &impl Abort, alloc: Global, sample: &str, count: usize) -> String {
    sample.repeat(alloc, count).expect(rt, "memory")
}

/// A raw phase plane of 2,048 by 2,048 pixels, which is 0 everywhere.
fn square(rt: &impl Abort, alloc: Global) -> String {
    let samples = samples(rt, alloc, "\0\0", 2048 * 2048);
    format!(in alloc; "P5\n2048 2048\n65535\n{samples}").expect(rt, "memory")
}

/// The seams of a board, found by the network from no guess at all.
fn seams(rt: &impl Abort, alloc: Global, board: &Board) -> SeamResult {
    let gathered = board.gather(alloc).expect(rt, "a result of each tile");
    let none = Guess {
        offsets: Vec::new(alloc),
        flows: Vec::new(alloc),
    };
    collect_from(alloc, &gathered, Some(none)).expect(rt, "memory")
}

/// In 1,024 tiles of side 64 the network finds offsets of 0, over seams of 31 columns and of 31 rows.
#[test]
fn seams_of_the_largest_square_have_room(rt: HostRuntime) {
    let alloc = rt.alloc();
    let board = flat_board(&rt, alloc, &square(&rt, alloc), 64, 1024);
    let seams = seams(&rt, alloc, &board);
    assert!(rt; seams.flows.len() == 2 * 31 * 2048 && seams.offsets.len() == 1024);
    assert!(rt; seams.offsets.iter().all(|offset| *offset == 0));
}
