use crate::offset_rows::{collected, guess, row_board};
use crate::outcomes::holds;
use offset_guess::Guess;
use std::alloc::Global;
use std::process::Abort;
use std::str::Split;
use worked_scenes::{field, number};

/// A raster of four columns in two tiles, as in the rows of `offset_rows`. The second tile is the last column alone. The
/// first falls by 32,000 from row to row, the other rises as much, so across the seam, where the edges weigh 9, 1 and 4, the
/// surface departs by 0, 1 and 2 cycles.
const PARTED: &str = "\
3|P2 4 3 65535 0 0 0 0 33536 33536 33536 32000 1536 1536 1536 64000 P2 4 3 9 9 9 9 9 1 1 1 1 4 4 4 4|\
    0 0 0 -1 -1 -1 -1 -1 -1/0 0 0 0;0 0 0/";

/// Rows of a steepness, a guess at offsets and flows, or neither, and how the answer begins. By hand: with offsets 0 0 the
/// seam costs 1 + 2 * 4 at steepness 1 and 1 + 4 * 4 at steepness 3; a cycle lower it departs by -1, 0 and 1 and costs 9 + 4
/// at both. The flows -5 1 4 certify 9 at steepness 1, and no others do; -9 0 9 certify 9 + 9 - 5 at steepness 3.
const ROWS: &str = "\
1|||[0, 0] [-5, 1, 4]
1|0|0|[0, 0] [-5, 1, 4]
1|0 -1|-9 0 9|[0, 0] [-5, 1, 4]
3|||[0, -1] [
3|0|0|[0, -1] [
3|0 0|-5 1 4|[0, -1] [
3|0 -1|-9 0 9|[0, -1] [-9, 0, 9]";

/// The guess of the next two fields of a row, if there is one.
fn next_guess(rt: &impl Abort, alloc: Global, fields: &mut Split<'_, char>) -> Option<Guess> {
    let (offsets, flows) = (field(fields), field(fields));
    if offsets.is_empty() {
        return None;
    }
    Some(guess(rt, alloc, offsets, flows))
}

/// Refuses a row whose answer does not begin as it says.
fn is_as_told(rt: &impl Abort, alloc: Global, row: &str) {
    let mut fields = row.split('|');
    let board = row_board(rt, alloc, number(&mut fields), PARTED);
    let guess = next_guess(rt, alloc, &mut fields);
    let found = collected(rt, alloc, &board, guess);
    holds(rt, row, found.starts_with(field(&mut fields)));
}

/// At a higher steepness a cycle on each of two edges costs less than two on one of them.
#[test]
fn steep_costs_move_a_region(rt: HostRuntime) {
    for row in ROWS.lines() {
        is_as_told(&rt, rt.alloc(), row);
    }
}
