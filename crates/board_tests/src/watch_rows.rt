//! Readers beside a desk: they wait for nobody there, and watchers keep what is published.
ghost use Rattle.board_desk.specs.Passes.{HaveAnalysts, IsPassOf};
ghost use Rattle.std.specs.Prelude.{◌≡◌, ◌≤◌, All, IfOk};
ghost use Rattle.tile_workers.specs.Watching.{HasRoom};

use crate::outcomes::same;
use crate::running::{last_of, open_desk};
use board_desk::{Desk, Pass};
use reader_desk::{Shelf, ShelfReader, ShelfWriter};
use std::alloc::{AllocError, Global};
use std::sync::Wait;
use std::sync::atomic::{AtomicU64, Ordering};
use std::thread::{Threads, join};
use tile_workers::{Curator, OpenGate, Watcher, run_watched};

/// How often a reader reads while a desk is asked.
const READS: u32 = 10_000;

/// How often a desk is asked at most.
const ASKS: u32 = 100_000_000;

/// A line in two tiles, two analysts of whom each masks one end and settles, and a third one who looks.
const LINE: &str = "P2\n4 1\n65535\n0 40000 14464 54464\n\
    analyst\nmask 3 0 3 0\nsettle\nsettle\nanalyst\nmask 0 0 0 0\nsettle\nshow\nanalyst\nshow\nend\n";

/// Reads often, and tells then that it has.
fn read_often(reader: &mut ShelfReader, told: &AtomicU64) {
    for _read in 0..READS {
        let _surface = reader.read().is_some();
    }
    told.store(1, Ordering::SeqCst);
}

/// Asks a desk until it is told that a reader has read, and says whether it was told in time. The desk's lock is taken by each
/// question, and held while the board is looked at.
fn ask_until<R: Wait>(rt: &R, alloc: Global, desk: &Desk, pass: &mut Pass, told: &AtomicU64) -> bool
    requires { IsPassOf desk.now pass.old }
{
    for _ask in 0..ASKS {
        if told.load(Ordering::SeqCst) == 1 {
            return true;
        }
        let _gathered = desk.gather(rt, alloc, pass).answer.is_ok();
    }
    false
}

#[test]
fn a_reader_waits_for_no_desk(rt: HostRuntime) {
    let alloc = rt.alloc();
    let (desk, mut passes) = open_desk(&rt, alloc, 2, LINE);
    let mut pass = last_of(&rt, &desk, &mut passes, 3);
    let (writer, mut readers) = Shelf::open(&rt, alloc, 1).expect(&rt, "memory");
    let mut reader = readers.pop().expect(&rt, "a reader");
    let told = AtomicU64::new(0);
    let (_read, in_time) = join(
        &rt,
        || read_often(&mut reader, &told),
        || ask_until(&rt, alloc, &desk, &mut pass, &told),
    );
    writer.close(&rt);
    assert!(rt; in_time);
}

/// Watchers of a writer's shelf, one for each reader, that read so often.
fn watchers_of(
    alloc: Global,
    _writer: &ShelfWriter,
    mut readers: Vec<ShelfReader>,
    reads: u32,
) -> Result<Vec<Watcher>, AllocError>
    requires { All (λ reader. reader ≡ _writer.now) readers.items }
    ensures rooms { IfOk result (λ watchers. All HasRoom watchers.items) }
    ensures shelf { IfOk result (λ watchers. All (λ watcher. watcher.reader.shelf ≡ _writer.now.shelf) watchers.items) }
{
    let mut watchers = Vec::new(alloc);
    while let Some(reader) = readers.pop() {
        watchers.push(Watcher::new(alloc, reader, reads)?)?;
    }
    Ok(watchers)
}

/// Runs the scripts of the passes' analysts, with a curator and watchers beside them.
fn watched<R: Threads + Wait + Sync>(
    rt: &R,
    alloc: Global,
    desk: &Desk,
    passes: &mut [Pass],
    curator: &mut Curator,
    watchers: &mut [Watcher],
) -> Result<(), AllocError>
    requires passes { All (IsPassOf desk.now) passes.old }
    requires analysts { HaveAnalysts passes.old }
    requires curator { IsPassOf desk.now curator.old.pass }
    requires rooms { All HasRoom watchers.old }
    requires shelf { All (λ watcher. watcher.reader.shelf ≡ curator.old.shelf.shelf) watchers.old }
    ensures pass { IsPassOf desk.now curator.new.pass }
    ensures ready { All (λ watcher. (1 ≤ watcher.room) × (watcher.reader.shelf ≡ curator.new.shelf.shelf)) watchers.new }
{
    run_watched(rt, alloc, desk, passes, 2, &OpenGate, curator, watchers, 64)
}

/// Places the last published surface, if it is not the last on the shelf.
fn place_last<R: Wait>(
    rt: &R,
    desk: &Desk,
    pass: &mut Pass,
    writer: &mut ShelfWriter,
) -> Result<(), AllocError>
    requires { IsPassOf desk.now pass.old }
    ensures { writer.new.shelf ≡ writer.old.shelf }
{
    if let Some(surface) = desk.newest(rt, pass).answer? {
        if writer.last_placed() != Some(surface.revision()) {
            writer.place(rt, surface)?;
        }
    }
    Ok(())
}

/// Whether each number is above the one before.
fn rises(revisions: &[u32]) -> bool {
    let mut least = 0;
    for revision in revisions {
        if *revision < least {
            return false;
        }
        least = revision.saturating_add(1);
    }
    true
}

/// Lets each watcher finish, and tells the last revision on the shelf, and of each watcher the last revision and whether all rise.
fn finished(
    alloc: Global,
    writer: &ShelfWriter,
    mut watchers: Vec<Watcher>,
) -> Result<String, AllocError>
    requires { All (λ watcher. (1 ≤ watcher.room) × (watcher.reader.shelf ≡ writer.now.shelf)) watchers.items }
{
    let mut text = format!(in alloc; "{:?}", writer.last_placed())?;
    while let Some(mut watcher) = watchers.pop() {
        watcher.finish(writer.tell()?);
        let kept = watcher.revisions();
        let line = format!(in alloc; " {:?} {}", kept.last().copied(), rises(kept))?;
        text.push_str(line.as_str())?;
    }
    Ok(text)
}

/// What watchers keep of the publications of analysts whose passes are given.
fn story<R: Threads + Wait + Sync>(
    rt: &R,
    alloc: Global,
    desk: &Desk,
    passes: &mut [Pass],
    mut curator: Curator,
    mut watchers: Vec<Watcher>,
) -> Result<String, AllocError>
    requires passes { All (IsPassOf desk.now) passes.old }
    requires analysts { HaveAnalysts passes.old }
    requires curator { IsPassOf desk.now curator.pass }
    requires rooms { All HasRoom watchers.items }
    requires shelf { All (λ watcher. watcher.reader.shelf ≡ curator.shelf.shelf) watchers.items }
{
    let ran = watched(rt, alloc, desk, passes, &mut curator, &mut watchers);
    let (mut pass, mut writer) = curator.into_parts();
    let placed = place_last(rt, desk, &mut pass, &mut writer);
    let text = finished(alloc, &writer, watchers);
    writer.close(rt);
    ran?;
    placed?;
    text
}

#[test]
fn watchers_end_with_the_last_publication(rt: HostRuntime) {
    let alloc = rt.alloc();
    let (desk, mut passes) = open_desk(&rt, alloc, 2, LINE);
    let mut third = last_of(&rt, &desk, &mut passes, 3);
    let pass = desk.worker_pass(&rt, &mut third);
    let (writer, readers) = Shelf::open(&rt, alloc, 2).expect(&rt, "memory");
    let watchers = watchers_of(alloc, &writer, readers, 64).expect(&rt, "memory");
    let curator = Curator::new(pass, writer);
    let told = story(&rt, alloc, &desk, &mut passes, curator, watchers).expect(&rt, "memory");
    same(&rt, "watchers", &told, "Some(2) Some(2) true Some(2) true");
}
