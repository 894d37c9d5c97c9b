ghost use Rattle.board_desk.specs.Passes.{HaveAnalysts, IsLaterPass, IsPassOf};
ghost use Rattle.std.specs.Prelude.{◌≡◌, ◌≢◌, All, None, OnOk, true};
ghost use Rattle.tile_workers.specs.Scripts.{AreEnded, AreLater};

use crate::gate::Gate;
use crate::settling::try_settle;
use board_desk::{Desk, Pass};
use raster_model::MAX_ANALYSTS;
use std::alloc::{AllocError, Global};
use std::sync::Wait;
use std::thread;
use std::thread::Threads;
use tile_board::{Advance, AdvanceFault};

/// The most analysts that run at once.
const MOST_ANALYSTS: usize = MAX_ANALYSTS as usize;

/// Runs the scripts of the passes' analysts to their ends, each in a thread of its own. Each settle command has workers of
/// its own; if `workers` is 0, it has one. It fails only for lack of memory; if one script runs out of memory, the others
/// still go on.
pub fn run_scripts<R: Threads + Wait + Sync, G: Gate>(
    rt: &R,
    alloc: Global,
    desk: &Desk,
    passes: &mut [Pass],
    workers: u32,
    gate: &G,
) -> Result<(), AllocError>
    requires passes { All (IsPassOf desk.now) passes.old }
    requires analysts { HaveAnalysts passes.old }
    ensures later { AreLater passes.old passes.new }
    ensures ended { OnOk result (AreEnded passes.new) }
{
    run_each(rt, alloc, desk, passes, workers, gate);
    if have_ended(passes) {
        Ok(())
    } else {
        Err(AllocError)
    }
}

/// Runs the scripts of the passes' analysts, each in a thread of its own.
fn run_each<R: Threads + Wait + Sync, G: Gate>(
    rt: &R,
    alloc: Global,
    desk: &Desk,
    passes: &mut [Pass],
    workers: u32,
    gate: &G,
)
    requires passes { All (IsPassOf desk.now) passes.old }
    requires analysts { HaveAnalysts passes.old }
    ensures { AreLater passes.old passes.new }
{
    thread::for_each_mut(
        rt,
        passes,
        MOST_ANALYSTS,
        &|_, pass: &mut Pass|
            requires { IsPassOf desk.now pass.old × (pass.old.analyst ≢ None) }
            ensures { IsLaterPass pass.entry.now pass.exit.now }
        {
            let _run = run_script(rt, alloc, desk, pass, workers, gate);
        },
    );
}

/// Whether the desk has answered of each pass that its script is at its end.
fn have_ended(passes: &[Pass]) -> bool
    ensures { result ≡ true → AreEnded passes.now }
{
    for pass in passes {
        if !pass.ended() {
            return false;
        }
    }
    true
}

/// Runs the script of a pass's analyst to its end.
fn run_script<R: Threads + Wait + Sync, G: Gate>(
    rt: &R,
    alloc: Global,
    desk: &Desk,
    pass: &mut Pass,
    workers: u32,
    gate: &G,
) -> Result<(), AllocError>
    requires pass { IsPassOf desk.now pass.old }
    requires analyst { pass.old.analyst ≢ None }
    ensures { IsLaterPass pass.old pass.new }
{
    for _ in rt.forever() {
        match desk.advance(rt, alloc, pass).answer {
            Ok(Advance::Revised(_) | Advance::Settled(_) | Advance::Shown(_)) => {}
            Ok(Advance::NotYet(_)) => {
                try_settle(rt, alloc, desk, pass, workers, gate)?;
            }
            Ok(Advance::Ended) => return Ok(()),
            Err(AdvanceFault::Memory) => return Err(AllocError),
        }
    }
    unreachable!()
}
