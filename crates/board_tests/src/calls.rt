ghost use Rattle.std.specs.Prelude.{◌≤◌};

use crate::outcomes::same;
use certificates::{SeamResult, TileResult};
use collector_core::{collect, finish};
use raster_model::{MAX_TILE_SIDE, MIN_TILE_SIDE};
use std::alloc::{AllocError, Global};
use std::process::Abort;
use std::str::Split;
use surface_snapshots::Snapshot;
use tile_board::{Board, ClaimFault, GatherFault, KeepFault, PublishFault, Ticket};
use worked_scenes::{board, cycles, field, number, numbers, tile_result};

/// The tile and the stamp of a claim.
fn claimed(alloc: Global, board: &mut Board) -> Result<(u32, u32), ClaimFault> {
    let ticket = board.claim(alloc)?;
    Ok((ticket.tile, ticket.stamp))
}

/// The tiles of so many claims, one after another.
fn claims(rt: &impl Abort, alloc: Global, board: &mut Board, count: u32) -> String {
    let mut tiles = Vec::new(alloc);
    for _claim in 0..count {
        if let Ok((tile, _stamp)) = claimed(alloc, board) {
            tiles.push(tile).expect(rt, "memory");
        }
    }
    format!(in alloc; "{tiles:?}").expect(rt, "memory")
}

/// The tiles of the tickets of a share, which two words number: how many parts there are, and how many tickets at most.
fn shared(
    rt: &impl Abort,
    alloc: Global,
    board: &mut Board,
    words: &mut Split<'_, char>,
) -> Result<Vec<u32>, ClaimFault> {
    let (parts, most) = (number(words), number(words));
    let tickets = board.claim_share(alloc, parts, most)?;
    Ok(tiles_of(rt, alloc, &tickets))
}

/// The tiles of tickets.
fn tiles_of(rt: &impl Abort, alloc: Global, tickets: &[Ticket]) -> Vec<u32> {
    let mut tiles = Vec::new(alloc);
    for ticket in tickets {
        tiles.push(ticket.tile).expect(rt, "memory");
    }
    tiles
}

/// A result that words number: the tile, the stamp, the face and then the cycles, with commas between them.
fn numbered(rt: &impl Abort, alloc: Global, words: &mut Split<'_, char>) -> TileResult {
    let (tile, stamp) = (number(words), number(words));
    let faces = numbers(alloc, field(words)).expect(rt, "memory");
    let spaced = field(words).replace(alloc, ",", " ").expect(rt, "memory");
    let cycles = cycles(alloc, &spaced).expect(rt, "memory");
    tile_result(alloc, tile, stamp, &cycles, &faces).expect(rt, "memory")
}

/// Hands in such a result.
fn keep(
    rt: &impl Abort,
    alloc: Global,
    board: &mut Board,
    words: &mut Split<'_, char>,
) -> Result<(), KeepFault> {
    board.keep(alloc, numbered(rt, alloc, words))
}

/// An offset for one region, if there are no seam edges.
pub fn seams(rt: &impl Abort, alloc: Global, revision: u32, offset: i64) -> SeamResult {
    SeamResult {
        revision,
        offsets: vec![in alloc; offset].expect(rt, "memory"),
        flows: Vec::new(alloc),
    }
}

/// Publishes an offset for a revision, which two words number.
fn publish(
    rt: &impl Abort,
    alloc: Global,
    board: &mut Board,
    words: &mut Split<'_, char>,
) -> Result<(), PublishFault> {
    let (revision, offset) = (number(words), number(words));
    let seams = seams(rt, alloc, revision, i64::from(offset));
    board.publish(alloc, 1, seams)
}

/// The revision that is gathered.
fn gathered(alloc: Global, board: &Board) -> Result<u32, GatherFault> {
    Ok(board.gather(alloc)?.revision)
}

/// The revision that is collected, its offsets and its flows.
fn collected(rt: &impl Abort, alloc: Global, board: &Board) -> String {
    let gathered = board.gather(alloc).expect(rt, "a result of each tile");
    let seams = collect(alloc, &gathered).expect(rt, "memory");
    let told = format!(in alloc; "{} {:?} {:?}", seams.revision, seams.offsets, seams.flows);
    told.expect(rt, "memory")
}

/// Adds the values of a surface in row order.
fn add_values(rt: &impl Abort, snapshot: &Snapshot, values: &mut Vec<Option<i64>>) {
    for y in 0..snapshot.height() {
        for x in 0..snapshot.width() {
            values.push(snapshot.value(x, y)).expect(rt, "memory");
        }
    }
}

/// The values of a board's surfaces, one surface after another.
fn surfaces(rt: &impl Abort, alloc: Global, board: &Board) -> String {
    let mut values = Vec::new(alloc);
    for snapshot in board.snapshots() {
        add_values(rt, snapshot, &mut values);
    }
    format!(in alloc; "{values:?}").expect(rt, "memory")
}

/// The revision, the newest that is published, and how many commands are done and surfaces are published.
fn state(alloc: Global, board: &Board) -> Result<String, AllocError> {
    let (newest, surfaces) = (board.newest(), board.snapshots().len());
    format!(in alloc;
        "{} {newest:?} {} {surfaces}",
        board.revision(),
        board.done(1)
    )
}

/// What a board says of itself.
fn look(rt: &impl Abort, alloc: Global, board: &Board, word: &str) -> String {
    let told = match word {
        "collect" => return collected(rt, alloc, board),
        "surfaces" => return surfaces(rt, alloc, board),
        "complete" => format!(in alloc; "{}", board.complete()),
        "entries" => format!(in alloc; "{:?}", board.entries()),
        "gather" => format!(in alloc; "{:?}", gathered(alloc, board)),
        "state" => state(alloc, board),
        _ => String::from_str(alloc, "no call"),
    };
    told.expect(rt, "memory")
}

/// Does a call, which is given in words, for the only analyst, and answers in words.
fn answer(rt: &impl Abort, alloc: Global, board: &mut Board, call: &str) -> String {
    let mut words = call.split(' ');
    let told = match field(&mut words) {
        "advance" => format!(in alloc; "{:?}", board.advance(alloc, 1)),
        "claim" => format!(in alloc; "{:?}", claimed(alloc, board)),
        "claims" => return claims(rt, alloc, board, number(&mut words)),
        "finish" => format!(in alloc; "{:?}", finish(alloc, board)),
        "keep" => format!(in alloc; "{:?}", keep(rt, alloc, board, &mut words)),
        "publish" => format!(in alloc; "{:?}", publish(rt, alloc, board, &mut words)),
        "share" => format!(in alloc; "{:?}", shared(rt, alloc, board, &mut words)),
        word => return look(rt, alloc, board, word),
    };
    told.expect(rt, "memory")
}

/// Does the calls on the left of the lines, one after another, on the board of a session's text, with tiles of a side. Each
/// has to be answered with what is on its right.
pub fn answered(rt: &impl Abort, alloc: Global, text: &str, side: u32, lines: &str)
    requires { (MIN_TILE_SIDE ≤ side) × (side ≤ MAX_TILE_SIDE) }
{
    let mut board = board(alloc, text, side).expect(rt, "a session");
    for line in lines.lines() {
        let (call, wanted) = line.split_once(" = ").unwrap_or((line, ""));
        let found = answer(rt, alloc, &mut board, call);
        same(rt, call, &found, wanted);
    }
}
