ghost use Rattle.board_desk.specs.Passes.{HaveAnalysts, IsLaterPass, IsPassOf};
ghost use Rattle.std.specs.Prelude.{◌≡◌, ◌<◌, All, OnOk};
ghost use Rattle.std.specs.Thread.{IsSync};
ghost use Rattle.tile_workers.specs.Scripts.{AreEnded, AreLater};
ghost use Rattle.tile_workers.specs.Watching.{Became, HasCurated, HasPlaced, HasRoom, HasWatched, HaveWatched};

use crate::curator::Curator;
use crate::gate::Gate;
use crate::scripts::run_scripts;
use crate::watcher::Watcher;
use board_desk::{Desk, Pass};
use std::alloc::{AllocError, Global};
use std::sync::Wait;
use std::thread;
use std::thread::Threads;

/// Runs the scripts of the passes' analysts to their ends, as `run_scripts` does. Beside them a curator asks the desk for its
/// newest surface so many times and places it on a shelf, and each watcher reads from its shelf, in a thread of its own, as
/// many times as it was made for. Watchers take no lock and wait for nobody. It fails only for lack of memory; if one of these
/// runs out of memory, the others still go on.
pub fn run_watched<R: Threads + Wait + Sync, G: Gate>(
    rt: &R,
    alloc: Global,
    desk: &Desk,
    passes: &mut [Pass],
    workers: u32,
    gate: &G,
    curator: &mut Curator,
    watchers: &mut [Watcher],
    reads: u32,
) -> Result<(), AllocError>
    requires passes { All (IsPassOf desk.now) passes.old }
    requires analysts { HaveAnalysts passes.old }
    requires curator { IsPassOf desk.now curator.old.pass }
    requires rooms { All HasRoom watchers.old }
    ensures later { AreLater passes.old passes.new }
    ensures ended { OnOk result (AreEnded passes.new) }
    ensures curated { HasCurated curator.old curator.new }
    ensures placed { OnOk result (0 < reads → HasPlaced curator.new) }
    ensures watched { HaveWatched watchers.old watchers.new }
{
    let (ran, curated) = thread::join_mut(
        rt,
        &mut || -> Result<(), AllocError>
            requires { IsSync R.row × All (IsPassOf desk.now) passes.now × HaveAnalysts passes.now }
            ensures { Became IsLaterPass passes.entry.now passes.exit.now × OnOk result (AreEnded passes.exit.now) }
        { run_scripts(rt, alloc, desk, passes, workers, gate) },
        &mut || -> Result<(), AllocError>
            requires { IsSync R.row × IsPassOf desk.now curator.now.pass × All HasRoom watchers.now }
            ensures { HasCurated curator.entry.now curator.exit.now × OnOk result (0 < reads → HasPlaced curator.exit.now) × Became HasWatched watchers.entry.now watchers.exit.now }
        { curate_beside(rt, desk, curator, reads, watchers) },
    );
    ran?;
    curated
}

/// Has a curator ask the desk so many times, while watchers read.
fn curate_beside<R: Threads + Wait + Sync>(
    rt: &R,
    desk: &Desk,
    curator: &mut Curator,
    reads: u32,
    watchers: &mut [Watcher],
) -> Result<(), AllocError>
    requires curator { IsPassOf desk.now curator.old.pass }
    requires rooms { All HasRoom watchers.old }
    ensures curated { HasCurated curator.old curator.new }
    ensures placed { OnOk result (0 < reads → HasPlaced curator.new) }
    ensures watched { Became HasWatched watchers.old watchers.new }
{
    let (_watched, curated) = thread::join_mut(
        rt,
        &mut ||
            requires { IsSync R.row × All HasRoom watchers.now }
            ensures { Became HasWatched watchers.entry.now watchers.exit.now }
        { watch_all(rt, watchers) },
        &mut || curator.curate(rt, desk, reads),
    );
    curated
}

/// Has each watcher read, in a thread of its own.
fn watch_all<R: Threads + Sync>(rt: &R, watchers: &mut [Watcher])
    requires { All HasRoom watchers.old }
    ensures { Became HasWatched watchers.old watchers.new }
{
    let threads = watchers.len().max(1);
    thread::for_each_mut(
        rt,
        watchers,
        threads,
        &|_, watcher: &mut Watcher|
            requires { HasRoom watcher.old }
            ensures { HasWatched watcher.entry.now watcher.exit.now }
        {
            watcher.watch();
        },
    );
}
