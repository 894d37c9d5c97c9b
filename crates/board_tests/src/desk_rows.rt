ghost use Rattle.board_desk.specs.Passes.{IsPassOf};
ghost use Rattle.std.specs.Prelude.{◌≢◌, None};

use crate::calls::seams;
use crate::outcomes::same;
use crate::running::{last_of, open_desk};
use board_desk::{Desk, Pass};
use std::alloc::Global;
use std::process::Abort;
use std::sync::Wait;
use worked_scenes::tile_result;

/// A full turn whose first pixel is masked: the three open pixels lie on a surface that departs nowhere.
const TURN: &str =
    "P2\n2 2\n65535\n0 16384 49152 32768\nanalyst\nmask 0 0 0 0\nsettle\nshow\nend\n";

/// Calls in the order in which they are made, and then each answer with the length of the history after it. The worker
/// claims and keeps; the analyst does the rest.
const ROWS: &str = "\
advance = 1 Ok(Revised(1))
publish 0 = 1 Err(Unready(0))
gather = 1 Err(Unready(0))
keep = 2 Ok(())
claim = 2 Err(NoJob)
gather = 2 Ok(1)
publish 1 = 2 Err(Uncertified(Anchor(1)))
publish 0 = 3 Ok(())
publish 0 = 3 Err(NotSettle)
advance = 4 Ok(Shown(Some(1)))
advance = 4 Ok(Ended)";

#[test]
fn a_desk_answers_its_passes(rt: HostRuntime) {
    let (desk, mut analyst, mut worker) = opened(&rt, rt.alloc());
    make_calls(&rt, rt.alloc(), &desk, &mut analyst, &mut worker);
    assert!(rt; analyst.ended() && analyst.done() == 3);
}

/// The desk of the session, the pass of its one analyst, and that of a worker.
fn opened<R: Wait + Abort>(rt: &R, alloc: Global) -> (Desk, Pass, Pass)
    ensures analyst { IsPassOf result.0 result.1 }
    ensures named { result.1.analyst ≢ None }
    ensures worker { IsPassOf result.0 result.2 }
{
    let (desk, mut passes) = open_desk(rt, alloc, 64, TURN);
    let mut analyst = last_of(rt, &desk, &mut passes, 1);
    let worker = desk.worker_pass(rt, &mut analyst);
    (desk, analyst, worker)
}

/// Makes the call of each row, which has to be answered as the row says.
fn make_calls<R: Wait + Abort>(
    rt: &R,
    alloc: Global,
    desk: &Desk,
    analyst: &mut Pass,
    worker: &mut Pass,
)
    requires analyst { IsPassOf desk.now analyst.old }
    requires named { analyst.old.analyst ≢ None }
    requires worker { IsPassOf desk.now worker.old }
{
    for row in ROWS.lines() {
        let (call, wanted) = row.split_once(" = ").unwrap_or((row, ""));
        let found = answer(rt, alloc, desk, analyst, worker, call);
        same(rt, call, &found, wanted);
    }
}

/// Does a call, which is given in words, and answers in words.
fn answer<R: Wait + Abort>(
    rt: &R,
    alloc: Global,
    desk: &Desk,
    analyst: &mut Pass,
    worker: &mut Pass,
    call: &str,
) -> String
    requires analyst { IsPassOf desk.now analyst.old }
    requires named { analyst.old.analyst ≢ None }
    requires worker { IsPassOf desk.now worker.old }
    ensures analyst { IsPassOf desk.now analyst.new }
    ensures named { analyst.new.analyst ≢ None }
    ensures worker { IsPassOf desk.now worker.new }
{
    match call {
        "advance" => advanced(rt, alloc, desk, analyst),
        "claim" => claimed(rt, alloc, desk, worker),
        "gather" => gathered(rt, alloc, desk, analyst),
        "keep" => kept(rt, alloc, desk, worker),
        _ => published(rt, alloc, desk, analyst, i64::from(call == "publish 1")),
    }
}

/// Does the analyst's next command.
fn advanced<R: Wait + Abort>(rt: &R, alloc: Global, desk: &Desk, analyst: &mut Pass) -> String
    requires own { IsPassOf desk.now analyst.old }
    requires named { analyst.old.analyst ≢ None }
    ensures own { IsPassOf desk.now analyst.new }
    ensures named { analyst.new.analyst ≢ None }
{
    let told = desk.advance(rt, alloc, analyst);
    format!(in alloc; "{} {:?}", told.front, told.answer).expect(rt, "memory")
}

/// Claims a tile.
fn claimed<R: Wait + Abort>(rt: &R, alloc: Global, desk: &Desk, worker: &mut Pass) -> String
    requires { IsPassOf desk.now worker.old }
    ensures { IsPassOf desk.now worker.new }
{
    let told = desk.claim(rt, alloc, worker);
    let tile = told.answer.map(|ticket| ticket.tile);
    format!(in alloc; "{} {tile:?}", told.front).expect(rt, "memory")
}

/// Gathers the results of all tiles, and tells their revision.
fn gathered<R: Wait + Abort>(rt: &R, alloc: Global, desk: &Desk, analyst: &mut Pass) -> String
    requires own { IsPassOf desk.now analyst.old }
    requires named { analyst.old.analyst ≢ None }
    ensures own { IsPassOf desk.now analyst.new }
    ensures named { analyst.new.analyst ≢ None }
{
    let told = desk.gather(rt, alloc, analyst);
    let revision = told.answer.map(|gathered| gathered.revision);
    format!(in alloc; "{} {revision:?}", told.front).expect(rt, "memory")
}

/// Keeps a result without departures for the stamp 1.
fn kept<R: Wait + Abort>(rt: &R, alloc: Global, desk: &Desk, worker: &mut Pass) -> String
    requires { IsPassOf desk.now worker.old }
    ensures { IsPassOf desk.now worker.new }
{
    let solved = tile_result(alloc, 0, 1, &[0; 4], &[0]).expect(rt, "memory");
    let told = desk.keep(rt, alloc, worker, solved);
    format!(in alloc; "{} {:?}", told.front, told.answer).expect(rt, "memory")
}

/// Publishes this offset for the revision 1.
fn published<R: Wait + Abort>(
    rt: &R,
    alloc: Global,
    desk: &Desk,
    analyst: &mut Pass,
    offset: i64,
) -> String
    requires own { IsPassOf desk.now analyst.old }
    requires named { analyst.old.analyst ≢ None }
    ensures own { IsPassOf desk.now analyst.new }
    ensures named { analyst.new.analyst ≢ None }
{
    let seams = seams(rt, alloc, 1, offset);
    let told = desk.publish(rt, alloc, analyst, seams);
    format!(in alloc; "{} {:?}", told.front, told.answer).expect(rt, "memory")
}
