use crate::outcomes::same;
use certificates::{SeamResult, TileResult};
use grid_writer::write_grid;
use insar_ports::MemorySink;
use report_text::write_report;
use std::alloc::Global;
use std::process::Abort;
use tile_board::Board;
use worked_scenes::board;

/// Keeps a result of a board's one tile, which has four pixels: no cycles, and the face 0 for each of its cells.
fn keep(rt: &impl Abort, alloc: Global, board: &mut Board, cells: usize) {
    let cycles = vec![in alloc; 0; 4].expect(rt, "memory");
    let faces = vec![in alloc; 0; cells].expect(rt, "memory");
    let solved = TileResult {
        tile: 0,
        stamp: board.revision(),
        cycles,
        faces,
    };
    board.keep(alloc, solved).expect(rt, "a good result");
}

/// Publishes these offsets of a board's regions, which no seam edges join.
fn publish(rt: &impl Abort, alloc: Global, board: &mut Board, offsets: &[i64]) {
    let seams = SeamResult {
        revision: board.revision(),
        offsets: offsets.to_vec(alloc).expect(rt, "memory"),
        flows: Vec::new(alloc),
    };
    board.publish(alloc, 1, seams).expect(rt, "good offsets");
}

/// Does a board's next command.
fn advance(rt: &impl Abort, alloc: Global, board: &mut Board) {
    let _advance = board.advance(alloc, 1).expect(rt, "memory");
}

/// The report of a board and the grids of its surfaces.
fn texts(rt: &impl Abort, alloc: Global, board: &Board) -> String {
    let mut sink = MemorySink::new(alloc, 1000, 7, Vec::new(alloc)).expect(rt, "memory");
    write_report(board, &mut sink).expect(rt, "room");
    for snapshot in board.snapshots() {
        write_grid(snapshot, &mut sink).expect(rt, "room");
    }
    let bytes = sink.bytes().to_vec(alloc).expect(rt, "memory");
    String::from_utf8(bytes).expect(rt, "text")
}

/// Does a command of a session's text, settles its one tile with no cycles and these offsets, and does two commands more.
/// Then this has to be written of it.
fn is_written(
    rt: &impl Abort,
    alloc: Global,
    text: &str,
    cells: usize,
    offsets: &[i64],
    report: &str,
) {
    let mut board = board(alloc, text, 64).expect(rt, "a session");
    advance(rt, alloc, &mut board);
    keep(rt, alloc, &mut board, cells);
    publish(rt, alloc, &mut board, offsets);
    advance(rt, alloc, &mut board);
    advance(rt, alloc, &mut board);
    let written = texts(rt, alloc, &board);
    same(rt, text, &written, report);
}

/// The report of an analyst that looks, settles twice and looks again.
const TWICE: &str = "insar-report 1
size 4 1
tile 64
rule least
shown 1 none
kept 0 0
published 1 0
costs 0 0
ncols 4
nrows 1
xllcorner 0
yllcorner 0
cellsize 1
NODATA_value -9223372036854775808
0 20000 40000 60000
faces 0
flows
settled 1 0
shown 1 0
end
ncols 4
nrows 1
xllcorner 0
yllcorner 0
cellsize 1
NODATA_value -9223372036854775808
0 20000 40000 60000
";

/// The report of `0 16384 / 49152 32768`, whose first pixel is masked by a script.
const MASKED: &str = "insar-report 1
size 2 2
tile 64
rule least
revised 1 mask 0 0 0 0
kept 0 1
published 1 1
costs 0 0
ncols 2
nrows 2
xllcorner 0
yllcorner 0
cellsize 1
NODATA_value -9223372036854775808
-9223372036854775808 16384
49152 32768
faces 0 0
flows
shown 1 1
end
ncols 2
nrows 2
xllcorner 0
yllcorner 0
cellsize 1
NODATA_value -9223372036854775808
-9223372036854775808 16384
49152 32768
";

/// The report of `100 200 / 300 400`, whose first and last pixel are masked from the start. The other two are regions of
/// their own, and the lower one is moved down by a cycle.
const APART: &str = "insar-report 1
size 2 2
tile 64
rule least
kept 0 0
published 1 0
costs 0 0
ncols 2
nrows 2
xllcorner 0
yllcorner 0
cellsize 1
NODATA_value -9223372036854775808
-9223372036854775808 200
-65236 -9223372036854775808
faces 0 0
flows
shown 1 0
end
ncols 2
nrows 2
xllcorner 0
yllcorner 0
cellsize 1
NODATA_value -9223372036854775808
-9223372036854775808 200
-65236 -9223372036854775808
";

const LINE: &str = "P2 4 1 65535 0 20000 40000 60000 analyst\nshow\nsettle\nsettle\nshow\nend\n";

const TURN: &str = "P2 2 2 65535 0 16384 49152 32768 analyst\nmask 0 0 0 0\nsettle\nshow\nend\n";

const SQUARE: &str = "P2 2 2 65535 100 200 300 400 P2 2 2 1 1 1 1 1 P2 2 2 1 0 1 1 0 ";

/// After each report comes the grid of its surface once more.
#[test]
fn reports_and_grids_are_written(rt: HostRuntime) {
    let alloc = rt.alloc();
    is_written(&rt, alloc, LINE, 0, &[0], TWICE);
    is_written(&rt, alloc, TURN, 1, &[0], MASKED);
    is_written(&rt, alloc, SQUARE, 1, &[0, -1], APART);
}
