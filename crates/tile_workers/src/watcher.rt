ghost use Rattle.reader_desk.specs.Fronts.{Learned, ShelfView};
ghost use Rattle.std.specs.Prelude.{◌≡◌, ◌<◌, ◌≤◌, [], IfOk};
ghost use Rattle.tile_workers.specs.Watching.{AreShown, HasFinished, HasRead, HasRoom, HasWatched, Rises, watcher_view};

use crate::rising::{keep_above, take_in};
use reader_desk::{Note, ShelfReader};
use std::alloc::{AllocError, Global};
use std::marker::Model;

/// Reads from a shelf, and keeps the revisions that it saw.
#[derive(Drop)]
pub struct Watcher {
    reader: ShelfReader,
    revisions: Vec<u32>,
    reads: u32,
    /// Unused. Watchers stand side by side in a list, and each is written by a thread of its own at every read. With so many
    /// bytes between them no two share a line of a cache.
    _apart: [u64; 16],
}

impl Model for Watcher {
    ghost use Rattle.std.specs.Prelude.{◌-◌, vec_capacity, vec_len};
    ghost use Rattle.tile_workers.specs.Watching.{AreShown, Rises, WatcherView, watcher_view};

    ghost Value = { WatcherView };

    ghost view = { λ w. watcher_view w.reader w.revisions.items w.reads (vec_capacity w.revisions - vec_len w.revisions) };

    ghost invariant = { λ w. Rises w.revisions.items × AreShown w.reader.surfaces w.revisions.items };
}

impl Watcher {
    /// A watcher that reads so many times, and has room for as many revisions and one more. It fails only for lack of memory.
    pub fn new(alloc: Global, reader: ShelfReader, reads: u32) -> Result<Watcher, AllocError>
        ensures made { IfOk result (λ made. (made.reader ≡ reader) × (made.revisions ≡ []) × (made.reads ≡ reads)) }
        ensures room { IfOk result HasRoom }
    {
        let revisions = Vec::with_capacity(alloc, reads as usize + 1)?;
        Ok(Watcher {
            reader,
            revisions,
            reads,
            _apart: [0; 16],
        })
    }

    /// The revisions that it kept. Each is above those before it, and that of the last surface which its reader knew at some
    /// time.
    pub fn revisions(&self) -> &[u32]
        ensures value { result.now ≡ self.now.revisions }
        ensures rises { Rises self.now.revisions }
        ensures shown { AreShown self.now.reader.surfaces self.now.revisions }
    {
        &self.revisions
    }

    /// Takes in what the shelf's writer told last. If the note has a last revision that the list lacks, it is added at its
    /// place in order, for which one place has to be left; then the reader learns the note. It needs no memory, and waits for
    /// nobody.
    pub fn finish(&mut self, note: Note)
        requires place { 1 ≤ self.old.room }
        requires shelf { note.shelf ≡ self.old.reader.shelf }
        ensures { HasFinished self.old self.new note }
    {
        if let Some(revision) = note.revision() {
            take_in(&mut self.revisions, revision);
        }
        self.reader.learn(note);
    }

    /// Reads until no read is left, and keeps each revision that is above the last one that it kept.
    pub(crate) fn watch(&mut self)
        requires { HasRoom self.old }
        ensures { HasWatched self.old self.new }
    {
        while 0 < self.reads {
            self.read();
        }
    }

    /// Reads once, and keeps the revision that it then knows, if it is above the last one that it kept.
    fn read(&mut self)
        requires left { 0 < self.old.reads }
        requires room { HasRoom self.old }
        ensures { HasRead self.old self.new }
    {
        self.reads -= 1;
        self.reader.look();
        if let Some(revision) = self.reader.known_revision() {
            keep_above(&mut self.revisions, revision);
        }
    }
}
