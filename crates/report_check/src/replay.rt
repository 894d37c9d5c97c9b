ghost use Rattle.raster_model.specs.Scripts.{IsRectIn, rect_of};
ghost use Rattle.raster_model.specs.Tiles.{tiles_of};
ghost use Rattle.report_check.specs.Replays.{CanCount, IsReplayOf, IsReplaying, IsRevised, MayTake, TakesEntry, TellsComplete, TellsStep, counted, doer};
ghost use Rattle.std.specs.Prelude.{◌≡◌, ◌↔◌, ℕ, ◌+◌, ◌<◌, ◌^◌, [], Bool, IfOk, IfSome, IsTrue, OnOk, Some, length, slice_get, slice_index_or, vec_len};
ghost use Rattle.tile_board.specs.Histories.{script_in};
ghost use Rattle.tile_board.specs.Places.{cursor_at};
ghost use Rattle.tile_board.specs.declared.entry.Entry.TheVariants.{Kept, Published, Settled, Shown};

use mask_revisions::Revisions;
use raster_model::{Command, Edit, Mask, Session};
use std::alloc::{AllocError, Global};
use tile_board::{Entry, all_ended, command_at, cursor_of, set_all};

/// What a history says, entry by entry.
#[derive(Drop)]
pub(crate) struct Replay {
    revisions: Revisions,
    /// By tile: whether a result was kept at its stamp.
    kept: Vec<bool>,
    /// How many commands were done, by analyst; the first is analyst 1.
    cursors: Vec<u32>,
    /// The newest published revision.
    newest: Option<u32>,
}

impl Replay {
    /// Before the first entry.
    pub(crate) fn new(alloc: Global, session: &Session) -> Result<Replay, AllocError>
        ensures { IfOk result (IsReplayOf session.now []) }
    {
        let tiling = session.scene.tiling;
        let first = session.first_mask.try_copy(alloc)?;
        let revisions = Revisions::new(alloc, first, tiling)?;
        let kept = vec![in alloc; false; tiling.tile_count() as usize]?;
        let cursors = vec![in alloc; 0; session.scripts.len()]?;
        Ok(Replay {
            revisions,
            kept,
            cursors,
            newest: None,
        })
    }

    /// The present mask.
    pub(crate) fn mask(&self) -> &Mask
        ensures { result.now ≡ self.now.revisions.mask }
    {
        self.revisions.mask()
    }

    /// Whether an entry may come next.
    pub(crate) fn may_take(&self, session: &Session, entry: Entry) -> bool
        requires { IsReplaying session.now self.now }
        ensures { TellsStep session.now self.now entry result }
    {
        match entry {
            Entry::Revised { analyst, edit } => self.is_next(
                session,
                analyst,
                Command::Change(edit),
            ),
            Entry::Kept { tile, stamp } => self.may_keep(session, tile, stamp),
            Entry::Published { analyst, revision } => self.may_publish(session, analyst, revision),
            Entry::Settled { analyst, revision } => self.may_settle(session, analyst, revision),
            Entry::Shown { analyst, revision } => self.may_show(session, analyst, revision),
        }
    }

    /// Whether every script is at its end.
    pub(crate) fn is_complete(&self, session: &Session) -> bool
        requires { IsReplaying session.now self.now }
        ensures { TellsComplete session.now self.now result }
    {
        all_ended(&session.scripts, &self.cursors)
    }

    /// Takes an entry that may come next.
    pub(crate) fn take(&mut self, alloc: Global, entry: Entry) -> Result<(), AllocError>
        requires { MayTake self.old entry }
        ensures { OnOk result (TakesEntry self.old self.new entry) }
    {
        count(&mut self.cursors, analyst_of(entry));
        match entry {
            Entry::Revised { edit, .. } => {
                self.revise(alloc, edit)?;
                Ok(())
            }
            Entry::Kept { tile, .. } => {
                self.kept[tile as usize] = true;
                Ok(())
            }
            Entry::Published { revision, .. } => {
                self.newest = Some(revision);
                Ok(())
            }
            Entry::Settled { .. } => Ok(()),
            Entry::Shown { .. } => Ok(()),
        }
    }

    /// Whether the next command of an analyst is this one.
    fn is_next(&self, session: &Session, analyst: u32, command: Command) -> bool
        ensures { IsTrue result ↔ (slice_get (script_in session.now.scripts.items analyst) (cursor_at self.now.cursors.items analyst) ≡ Some command) }
    {
        let place = cursor_of(&self.cursors, analyst);
        command_at(&session.scripts, analyst, place) == Some(command)
    }

    /// Whether the newest published revision is this one, if any.
    fn is_newest(&self, revision: Option<u32>) -> bool
        ensures { IsTrue result ↔ (self.now.newest ≡ revision) }
    {
        self.newest == revision
    }

    fn may_keep(&self, session: &Session, tile: u32, stamp: u32) -> bool
        requires { IsReplaying session.now self.now }
        ensures { TellsStep session.now self.now (Kept tile stamp) result }
    {
        if tile >= session.scene.tiling.tile_count() {
            return false;
        }
        if self.revisions.stamp(tile) != stamp {
            return false;
        }
        !self.kept[tile as usize]
    }

    fn may_publish(&self, session: &Session, analyst: u32, revision: u32) -> bool
        requires { IsReplaying session.now self.now }
        ensures { TellsStep session.now self.now (Published analyst revision) result }
    {
        if !self.is_next(session, analyst, Command::Settle) {
            return false;
        }
        if revision != self.revisions.count() {
            return false;
        }
        if self.is_newest(Some(revision)) {
            return false;
        }
        are_all(&self.kept)
    }

    fn may_settle(&self, session: &Session, analyst: u32, revision: u32) -> bool
        requires { IsReplaying session.now self.now }
        ensures { TellsStep session.now self.now (Settled analyst revision) result }
    {
        if !self.is_next(session, analyst, Command::Settle) {
            return false;
        }
        if revision != self.revisions.count() {
            return false;
        }
        self.is_newest(Some(revision))
    }

    fn may_show(&self, session: &Session, analyst: u32, revision: Option<u32>) -> bool
        requires { IsReplaying session.now self.now }
        ensures { TellsStep session.now self.now (Shown analyst revision) result }
    {
        self.is_next(session, analyst, Command::Show) && self.is_newest(revision)
    }

    /// Applies an edit of the mask. The tiles with a pixel that changes are kept no longer.
    fn revise(&mut self, alloc: Global, edit: Edit) -> Result<(), AllocError>
        requires rect { IsRectIn self.old.revisions.tiling.width self.old.revisions.tiling.height (rect_of edit) }
        requires room { self.old.revisions.count + 1 < 2 ^ 32 }
        requires tiles { vec_len self.old.kept ≡ tiles_of self.old.revisions.tiling }
        ensures { OnOk result (IsRevised self.old self.new edit) }
    {
        let tiles = self.revisions.push(alloc, edit)?;
        set_all(&mut self.kept, &tiles, false);
        Ok(())
    }
}

/// The analyst who does a command with an entry.
fn analyst_of(entry: Entry) -> Option<u32>
    ensures { result ≡ doer entry }
{
    match entry {
        Entry::Revised { analyst, .. } => Some(analyst),
        Entry::Kept { .. } => None,
        Entry::Published { analyst, .. } => Some(analyst),
        Entry::Settled { analyst, .. } => Some(analyst),
        Entry::Shown { analyst, .. } => Some(analyst),
    }
}

/// Counts a command of an analyst, if any, as done.
fn count(cursors: &mut Vec<u32>, analyst: Option<u32>)
    requires { IfSome analyst (CanCount cursors.old.items) }
    ensures { cursors.new.items ≡ counted cursors.old.items analyst }
{
    if let Some(analyst) = analyst {
        cursors[analyst as usize - 1] += 1;
    }
}

/// Whether all of some tests are passed.
fn are_all(tests: &[bool]) -> bool
    ensures { IsTrue result ↔ ((k : ℕ) → k < length tests.now → IsTrue (slice_index_or tests.now k Bool.false)) }
{
    tests.iter().all(|&test| test)
}
