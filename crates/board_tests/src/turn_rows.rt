ghost use Rattle.board_desk.specs.Passes.{IsPassOf};
ghost use Rattle.std.specs.Prelude.{All, IfOk};

use crate::running::{last_of, open_desk};
use board_desk::{Desk, Pass};
use std::alloc::{AllocError, Global};
use std::sync::Wait;
use std::sync::atomic::{AtomicU64, Ordering};
use std::thread;
use std::thread::Threads;

/// The line in one tile.
const LINE: &str = "P2 4 1 65535 0 40000 14464 54464";

/// How many workers ask at once, and how often each.
const WORKERS: u32 = 8;

const TIMES: u64 = 10_000;

/// Eight workers ask for a tile 10,000 times each, in threads of their own, and each call is answered. A call waits asleep for
/// only those before it, so that the test ends in seconds.
#[test]
fn each_call_has_its_turn(rt: HostRuntime) {
    let alloc = rt.alloc();
    let (desk, mut passes) = open_desk(&rt, alloc, 64, LINE);
    let mut analyst = last_of(&rt, &desk, &mut passes, 1);
    let mut workers = hired(&rt, alloc, &desk, &mut analyst).expect(&rt, "memory");
    let given = AtomicU64::new(0);
    ask_at_once(&rt, alloc, &desk, &mut workers, &given);
    assert!(rt; given.load(Ordering::SeqCst) == 80_000);
}

/// Passes of workers.
fn hired<R: Wait>(
    rt: &R,
    alloc: Global,
    desk: &Desk,
    from: &mut Pass,
) -> Result<Vec<Pass>, AllocError>
    requires { IsPassOf desk.now from.old }
    ensures { IfOk result (λ workers. All (IsPassOf desk.now) workers.items) }
{
    let mut workers = Vec::with_capacity(alloc, WORKERS as usize)?;
    for _worker in 0..WORKERS {
        workers.push(desk.worker_pass(rt, from))?;
    }
    Ok(workers)
}

/// All ask at once, each in a thread of its own.
fn ask_at_once<R: Threads + Wait + Sync>(
    rt: &R,
    alloc: Global,
    desk: &Desk,
    workers: &mut [Pass],
    given: &AtomicU64,
)
    requires { All (IsPassOf desk.now) workers.old }
{
    thread::for_each_mut(
        rt,
        workers,
        WORKERS as usize,
        &|_, pass: &mut Pass|
            requires { IsPassOf desk.now pass.old }
        { ask_often(rt, alloc, desk, pass, given) },
    );
}

/// Asks for a tile again and again, and counts the answers that give one.
fn ask_often<R: Wait>(rt: &R, alloc: Global, desk: &Desk, pass: &mut Pass, given: &AtomicU64)
    requires { IsPassOf desk.now pass.old }
{
    for _ask in 0..TIMES {
        if desk.claim(rt, alloc, pass).answer.is_ok() {
            given.fetch_add(1, Ordering::SeqCst);
        }
    }
}
