//! A shelf beside one writer and its readers, on one thread and on several.
ghost use Rattle.std.specs.Prelude.{◌≡◌, All};

use crate::outcomes::same;
use collector_core::finish;
use reader_desk::{Shelf, ShelfReader, ShelfWriter};
use std::alloc::{AllocError, Global};
use std::process::Abort;
use std::sync::Wait;
use std::sync::atomic::{AtomicU64, Ordering};
use std::thread::{Threads, for_each_mut, join};
use surface_snapshots::Snapshot;
use tile_board::Board;
use worked_scenes::board;

/// How often an edit and a settle command are done.
const EDITS: u32 = 200;

/// How often a reader reads while surfaces are placed.
const READS: u32 = 10_000;

/// The most turns of a reader that waits for its first surface.
const TURNS: u32 = 1_000_000;

/// A session of one tile that is settled, and again after each of so many edits.
fn session(rt: &impl Abort, alloc: Global, edits: u32) -> String {
    let start = "P2\n2 2\n65535\n0 16384 49152 32768\nanalyst\nsettle\n";
    let mut text = String::from_str(alloc, start).expect(rt, "memory");
    for edit in 0..edits {
        let word = if edit % 2 == 0 { "mask" } else { "unmask" };
        text.push_str(word).expect(rt, "memory");
        text.push_str(" 0 0 0 0\nsettle\n").expect(rt, "memory");
    }
    text.push_str("end\n").expect(rt, "memory");
    text
}

/// A board whose surfaces have the revisions from 0 to `edits`.
fn edited(rt: &impl Abort, alloc: Global, edits: u32) -> Board {
    let text = session(rt, alloc, edits);
    let mut board = board(alloc, &text, 64).expect(rt, "a session");
    finish(alloc, &mut board).expect(rt, "memory");
    board
}

/// Places the surface at an index of these.
fn place_one<R: Wait>(
    rt: &R,
    writer: &mut ShelfWriter,
    snapshots: &[Snapshot],
    index: usize,
) -> Result<(), AllocError>
    ensures { writer.new.shelf ≡ writer.old.shelf }
{
    match snapshots.get(index) {
        Some(snapshot) => writer.place(rt, snapshot.share()?),
        None => Err(AllocError),
    }
}

/// Places all of these surfaces.
fn place_all<R: Wait>(
    rt: &R,
    writer: &mut ShelfWriter,
    snapshots: &[Snapshot],
) -> Result<(), AllocError> {
    for snapshot in snapshots {
        writer.place(rt, snapshot.share()?)?;
    }
    Ok(())
}

/// The revision that a reader knows after a look.
fn revision_seen(reader: &mut ShelfReader) -> Option<u32>
    ensures { reader.new.shelf ≡ reader.old.shelf }
{
    reader.look();
    reader.known_revision()
}

/// The revision that a reader reads, counted from 1; 0 if it reads none.
fn number_read(reader: &mut ShelfReader) -> u64 {
    match reader.read() {
        Some(snapshot) => u64::from(snapshot.revision()) + 1,
        None => 0,
    }
}

/// The last of the readers of a shelf.
fn last_of(rt: &impl Abort, _writer: &ShelfWriter, readers: &mut Vec<ShelfReader>) -> ShelfReader
    requires { All (λ reader. reader ≡ _writer.now) readers.old.items }
    ensures reader { result ≡ _writer.now }
    ensures rest { All (λ reader. reader ≡ _writer.now) readers.new.items }
{
    readers.pop().expect(rt, "a reader")
}

/// What two readers see: nothing at first; the first one what it was told of; the second one what was placed since, also
/// after it was told of less.
fn story<R: Wait + Abort>(
    rt: &R,
    alloc: Global,
    snapshots: &[Snapshot],
    writer: &mut ShelfWriter,
    first: &mut ShelfReader,
    second: &mut ShelfReader,
) -> String
    requires first { first.old.shelf ≡ writer.old.shelf }
    requires second { second.old.shelf ≡ writer.old.shelf }
{
    let before = (revision_seen(first), revision_seen(second));
    place_one(rt, writer, snapshots, 0).expect(rt, "memory");
    first.learn(writer.tell().expect(rt, "memory"));
    let note = writer.tell().expect(rt, "memory");
    let told = revision_seen(first);
    place_one(rt, writer, snapshots, 1).expect(rt, "memory");
    let newer = revision_seen(second);
    second.learn(note);
    let after = revision_seen(second);
    let read = number_read(first);
    format!(in alloc; "{before:?} {told:?} {newer:?} {after:?} {read}").expect(rt, "memory")
}

#[test]
fn a_reader_never_goes_back(rt: HostRuntime) {
    let alloc = rt.alloc();
    let board = edited(&rt, alloc, 1);
    let (mut writer, mut readers) = Shelf::open(&rt, alloc, 2).expect(&rt, "memory");
    let mut first = last_of(&rt, &writer, &mut readers);
    let mut second = last_of(&rt, &writer, &mut readers);
    let snapshots = board.snapshots();
    let told = story(&rt, alloc, snapshots, &mut writer, &mut first, &mut second);
    writer.close(&rt);
    same(
        &rt,
        "readers",
        &told,
        "(None, None) Some(0) Some(1) Some(1) 2",
    );
}

/// The number that a reader reads first that is not 0, if it does so in time.
fn first_read(reader: &mut ShelfReader) -> u64 {
    for _turn in 0..TURNS {
        let number = number_read(reader);
        if number > 0 {
            return number;
        }
    }
    0
}

#[test]
fn a_reader_sees_what_is_placed_beside_it(rt: HostRuntime) {
    let alloc = rt.alloc();
    let board = edited(&rt, alloc, 0);
    let (mut writer, mut readers) = Shelf::open(&rt, alloc, 1).expect(&rt, "memory");
    let mut reader = last_of(&rt, &writer, &mut readers);
    let snapshots = board.snapshots();
    let (read, placed) = join(
        &rt,
        || first_read(&mut reader),
        || place_one(&rt, &mut writer, snapshots, 0),
    );
    writer.close(&rt);
    assert!(rt; placed.is_ok() && read == 1);
}

/// A reader and what it saw: the number that it read last, how many numbers it saw, and how often one was below the one before.
#[derive(Drop)]
struct Looker {
    reader: ShelfReader,
    last: u64,
    seen: u32,
    falls: u32,
}

impl Looker {
    /// Reads often.
    fn read_often(&mut self) {
        for _read in 0..READS {
            let number = number_read(&mut self.reader);
            if number > self.last {
                self.seen = self.seen.saturating_add(1);
            }
            if number < self.last {
                self.falls = self.falls.saturating_add(1);
            }
            self.last = number;
        }
    }
}

/// Readers that saw nothing yet.
fn lookers_of(alloc: Global, mut readers: Vec<ShelfReader>) -> Result<Vec<Looker>, AllocError> {
    let mut lookers = Vec::new(alloc);
    while let Some(reader) = readers.pop() {
        lookers.push(Looker {
            reader,
            last: 0,
            seen: 0,
            falls: 0,
        })?;
    }
    Ok(lookers)
}

/// Places the first surface, and then has each reader read often, in a thread of its own, while all surfaces are placed.
fn look_beside<R: Threads + Wait + Sync>(
    rt: &R,
    writer: &mut ShelfWriter,
    snapshots: &[Snapshot],
    lookers: &mut [Looker],
) -> Result<(), AllocError> {
    place_one(rt, writer, snapshots, 0)?;
    let (_reads, placed) = join(
        rt,
        || for_each_mut(
            rt,
            lookers,
            8,
            &|_, looker: &mut Looker| looker.read_often(),
        ),
        || place_all(rt, writer, snapshots),
    );
    placed
}

/// How many of the readers saw a surface and never an older one after it.
fn steady(lookers: &[Looker]) -> usize {
    lookers
        .iter()
        .filter(|looker| looker.seen > 0 && looker.falls == 0)
        .count()
}

#[test]
fn what_eight_readers_see_rises(rt: HostRuntime) {
    let alloc = rt.alloc();
    let board = edited(&rt, alloc, EDITS);
    let (mut writer, readers) = Shelf::open(&rt, alloc, 8).expect(&rt, "memory");
    let mut lookers = lookers_of(alloc, readers).expect(&rt, "memory");
    let looked = look_beside(&rt, &mut writer, board.snapshots(), &mut lookers);
    writer.close(&rt);
    assert!(rt; looked.is_ok() && steady(&lookers) == 8);
}
