use crate::running::{closed, last_of, open_desk};
use tile_board::{Advance, Entry, KeepFault};
use worked_scenes::tile_result;

/// A full turn whose first pixel is masked by one analyst and whose second by another.
const TURN: &str = "P2 2 2 65535 0 16384 49152 32768
analyst
mask 0 0 0 0
settle
show
analyst
mask 1 0 1 0
show
end
";

/// A worker claims the tile, the analyst masks a pixel, and the worker's result comes too late.
#[test]
fn a_worker_hears_that_its_result_is_stale(rt: HostRuntime) {
    let alloc = rt.alloc();
    let (desk, mut passes) = open_desk(&rt, alloc, 64, TURN);
    let _second = last_of(&rt, &desk, &mut passes, 2);
    let mut analyst = last_of(&rt, &desk, &mut passes, 1);
    let mut worker = desk.worker_pass(&rt, &mut analyst);
    let claimed = desk.claim(&rt, alloc, &mut worker);
    let ticket = claimed.answer.expect(&rt, "a tile");
    assert!(rt; claimed.front == 0 && ticket.tile == 0 && ticket.stamp == 0);
    let advanced = desk.advance(&rt, alloc, &mut analyst);
    assert!(rt; advanced.front == 1 && advanced.answer == Ok(Advance::Revised(1)));
    let late = tile_result(alloc, 0, 0, &[0, 0, 0, 0], &[0]).expect(&rt, "memory");
    let late = desk.keep(&rt, alloc, &mut worker, late);
    assert!(rt; late.front == 1 && late.answer == Err(KeepFault::Stale(1)));
}

/// A worker of a pass keeps the tile at its stamp and is given back; then no tile is left, and the results are gathered.
/// Masked, the raster has no departure, so that zeros are good.
#[test]
fn an_analyst_hears_of_its_worker(rt: HostRuntime) {
    let alloc = rt.alloc();
    let (desk, mut passes) = open_desk(&rt, alloc, 64, TURN);
    let _second = last_of(&rt, &desk, &mut passes, 2);
    let mut analyst = last_of(&rt, &desk, &mut passes, 1);
    assert!(rt; desk.advance(&rt, alloc, &mut analyst).front == 1);
    let mut worker = desk.worker_pass(&rt, &mut analyst);
    let solved = tile_result(alloc, 0, 1, &[0, 0, 0, 0], &[0]).expect(&rt, "memory");
    assert!(rt; desk.keep(&rt, alloc, &mut worker, solved).front == 2 && analyst.front() == 1);
    desk.give_back(&rt, &mut analyst, worker);
    assert!(rt; analyst.front() == 2 && analyst.done() == 1);
    let gathered = desk
        .gather(&rt, alloc, &mut analyst)
        .answer
        .expect(&rt, "a result");
    assert!(rt; gathered.revision == 1);
}

/// A script ends only for its own pass, and the board has what was done.
#[test]
fn a_pass_ends_where_its_script_does(rt: HostRuntime) {
    let alloc = rt.alloc();
    let (desk, mut passes) = open_desk(&rt, alloc, 64, TURN);
    let mut two = last_of(&rt, &desk, &mut passes, 2);
    let mut one = last_of(&rt, &desk, &mut passes, 1);
    assert!(rt; desk.advance(&rt, alloc, &mut two).front == 1);
    assert!(rt; desk.advance(&rt, alloc, &mut one).front == 2);
    assert!(rt; desk.advance(&rt, alloc, &mut two).front == 3 && !two.ended());
    assert!(rt; desk.advance(&rt, alloc, &mut two).answer == Ok(Advance::Ended));
    assert!(rt; two.ended() && !one.ended() && two.done() == 2 && one.done() == 1);
    let board = closed(&rt, alloc, desk, one, two).expect(&rt, "memory");
    let entries = board.entries();
    assert!(rt; entries.len() == 3 && matches!(entries[0], Entry::Revised { analyst: 2, .. }));
}

/// Two analysts on the line in two tiles; each masks an end of it.
const ENDS: &str = "P2 4 1 65535 0 40000 14464 54464
analyst
mask 3 0 3 0
settle
show
analyst
mask 0 0 0 0
settle
show
end
";

/// Two passes of one history: each hears of its own edit, one hears of the other's by a worker, and the closed board has both.
#[test]
fn two_passes_stand_in_one_history(rt: HostRuntime) {
    let alloc = rt.alloc();
    let (desk, mut passes) = open_desk(&rt, alloc, 2, ENDS);
    let mut two = last_of(&rt, &desk, &mut passes, 2);
    let mut one = last_of(&rt, &desk, &mut passes, 1);
    let first = desk.advance(&rt, alloc, &mut one);
    assert!(rt; first.front == 1 && first.answer == Ok(Advance::Revised(1)));
    let second = desk.advance(&rt, alloc, &mut two);
    assert!(rt; second.front == 2 && second.answer == Ok(Advance::Revised(2)));
    let worker = desk.worker_pass(&rt, &mut two);
    desk.give_back(&rt, &mut one, worker);
    assert!(rt; one.front() == 2 && one.done() == 1);
    let board = closed(&rt, alloc, desk, one, two).expect(&rt, "memory");
    let entries = board.entries();
    assert!(rt; entries.len() == 2 && matches!(entries[0], Entry::Revised { analyst: 1, .. }));
    assert!(rt; matches!(entries[1], Entry::Revised { analyst: 2, .. }));
}
