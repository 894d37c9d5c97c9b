use crate::outcomes::same;
use crate::reading::terms_at;
use certificates::TileResult;
use collector_core::collect_from;
use offset_guess::Guess;
use std::alloc::Global;
use std::process::Abort;
use tile_board::Board;
use worked_scenes::{board_on, cycles, field, number, numbers, tile_result};

/// Rows with the side of the tiles, planes, the tiles' results with cycles and faces, and the one answer: an offset for each region and a flow for each seam edge.
/// By hand: a line whose second half lies a cycle lower; two light edges that give way to a heavy one (with the column
/// unmoved the departures are 0, 0 and 1 and cost 9, a cycle lower they are -1, -1 and 0 and cost 8); a mask that separates a
/// tile into two regions, which with that of the other tile lie 2, -3 and 5 cycles from a surface without departures; and the
/// line if all is masked.
const ROWS: &str = "\
2|P2 4 1 65535 0 40000 14464 54464|0 -1/;0 -1/|0 -1|0
3|P2 4 3 65535 0 0 0 0 0 0 0 20000 0 0 0 40000 P2 4 3 9 4 4 4 4 4 4 4 4 9 9 9 9|\
    0 0 0 0 0 0 0 0 0/0 0 0 0;0 0 0/|0 -1|-4 -4 8
3|P2 3 4 65535 0 20000 40000 10000 30000 50000 20000 40000 60000 30000 50000 4464 \
    P2 3 4 1 1 1 1 1 1 1 1 1 1 1 1 1 P2 3 4 1 1 0 1 1 0 1 1 0 1 1 1 1|\
    2 0 -3 2 0 -3 2 0 -3/0 0 0 0;5 5 6/|-2 3 -5|0 0 0
2|P2 4 1 65535 0 40000 14464 54464 P2 4 1 1 1 1 1 1 P2 4 1 1 0 0 0 0|0 0/;0 0/||0";

/// The result of a tile, whose field has the cycles and the faces.
fn result(rt: &impl Abort, alloc: Global, tile: u32, field: &str) -> TileResult {
    let (own, faces) = field.split_once('/').unwrap_or((field, ""));
    let own = cycles(alloc, own).expect(rt, "memory");
    let faces = numbers(alloc, faces).expect(rt, "memory");
    tile_result(alloc, tile, 0, &own, &faces).expect(rt, "memory")
}

/// The board of a row at a steepness. The row begins with the side, the planes and the results, which the board keeps.
pub(crate) fn row_board(rt: &impl Abort, alloc: Global, steep: u32, row: &str) -> Board {
    let mut fields = row.split('|');
    let side = number(&mut fields).clamp(2, 128);
    let board = board_on(alloc, terms_at(steep), field(&mut fields), side);
    let mut board = board.expect(rt, "a session");
    for (tile, field) in (0u32..).zip(field(&mut fields).split(';')) {
        board
            .keep(alloc, result(rt, alloc, tile, field))
            .expect(rt, "a good result");
    }
    board
}

/// What is collected on a board from a guess, if one is given, in the words of a row: the offsets and the flows.
pub(crate) fn collected(
    rt: &impl Abort,
    alloc: Global,
    board: &Board,
    guess: Option<Guess>,
) -> String {
    let gathered = board.gather(alloc).expect(rt, "a result of each tile");
    let seams = collect_from(alloc, &gathered, guess).expect(rt, "memory");
    format!(in alloc; "{:?} {:?}", seams.offsets, seams.flows).expect(rt, "memory")
}

/// The answer at the end of a row, in the same words.
fn wanted(rt: &impl Abort, alloc: Global, row: &str) -> String {
    let mut fields = row.rsplit('|');
    let flows = numbers(alloc, fields.next().unwrap_or("")).expect(rt, "memory");
    let offsets = numbers(alloc, fields.next().unwrap_or("")).expect(rt, "memory");
    format!(in alloc; "{offsets:?} {flows:?}").expect(rt, "memory")
}

#[test]
fn regions_are_moved_where_their_seams_cost_least(rt: HostRuntime) {
    let alloc = rt.alloc();
    for row in ROWS.lines() {
        let board = row_board(&rt, alloc, 1, row);
        let found = collected(&rt, alloc, &board, None);
        same(&rt, row, &found, &wanted(&rt, alloc, row));
    }
}

/// Guesses at offsets and flows for each of the rasters: none, one of another raster, a flow missing, off by one or turned, an
/// offset too many, a region not moved, all seven cycles higher (which is right), and numbers at the ends of their types.
const GUESSES: &str = "\
|
0 -1|0
0 -1|-4 -4
0 -1|-4 -3 8
0 -1|4 4 -8
0 -1 0|-4 -4 8
0 0|-4 -4 8
7 6|-4 -4 8
-2 3 -5|0 0 0
-9223372036854775808 9223372036854775807|-4 -4 8
0 -1|-9223372036854775808 9223372036854775807 8";

/// The guess of two fields.
pub(crate) fn guess(rt: &impl Abort, alloc: Global, offsets: &str, flows: &str) -> Guess {
    let offsets = numbers(alloc, offsets).expect(rt, "memory");
    let flows = numbers(alloc, flows).expect(rt, "memory");
    Guess { offsets, flows }
}

/// Refuses a board that does not give its one answer from each of the guesses.
fn ends_alike(rt: &impl Abort, alloc: Global, board: &Board, wanted: &str) {
    for row in GUESSES.lines() {
        let (offsets, flows) = row.split_once('|').unwrap_or((row, ""));
        let guess = guess(rt, alloc, offsets, flows);
        let found = collected(rt, alloc, board, Some(guess));
        same(rt, row, &found, wanted);
    }
}

/// From any guess each raster gets its one answer.
#[test]
fn any_guess_ends_in_least_offsets(rt: HostRuntime) {
    let alloc = rt.alloc();
    for row in ROWS.lines() {
        let board = row_board(&rt, alloc, 1, row);
        ends_alike(&rt, alloc, &board, &wanted(&rt, alloc, row));
    }
}
