ghost use Rattle.std.specs.Prelude.{◌≡◌};
ghost use Rattle.tile_board.specs.Calls.{share_size};

use crate::answers::{Advance, AdvanceFault, ClaimFault, GatherFault, KeepFault, PublishFault};
use crate::cursors::{all_ended, command_at, cursor_of};
use crate::entry::Entry;
use crate::gathered::{Gathered, PresentMask};
use crate::kept::{KeptResults, share};
use crate::lacking::LackingTiles;
use crate::places::push_within;
use crate::ticket::Ticket;
use certificates::{SeamResult, TileResult, TileSet, TileVerdict, check_tile};
use mask_revisions::{Revisions, tiles_met};
use raster_model::{Command, Edit, Mask, Session};
use seam_regions::Regions;
use std::alloc::{AllocError, Global};
use std::marker::Model;
use std::sync::Arc;
use surface_snapshots::Snapshot;

/// The state of a session's work: its history, the present mask, the kept results and the published surfaces.
#[derive(Drop)]
pub struct Board {
    session: Arc<Session>,
    revisions: Revisions,
    kept: KeptResults,
    lacking: LackingTiles,
    /// How many commands each analyst has done; the first is analyst 1.
    cursors: Vec<u32>,
    newest: Option<u32>,
    entries: Vec<Entry>,
    snapshots: Vec<Snapshot>,
}

impl Model for Board {
    ghost use Rattle.raster_model.specs.Tiles.{tiles_of};
    ghost use Rattle.std.specs.Arc.{arc_value};
    ghost use Rattle.std.specs.Prelude.{◌≡◌, map, vec_len};
    ghost use Rattle.surface_snapshots.specs.Views.{parts_of};
    ghost use Rattle.tile_board.specs.BoardView.{BoardView};
    ghost use Rattle.tile_board.specs.States.{IsState, board_view_of};

    ghost Value = { BoardView };

    ghost view = { λ b. board_view_of (arc_value b.session) b.entries.items b.kept (map parts_of b.snapshots.items) };

    ghost invariant = { λ b. IsState (board_view_of (arc_value b.session) b.entries.items b.kept (map parts_of b.snapshots.items)) b.revisions b.lacking b.cursors.items b.newest };
}

impl Board {
    ghost use Rattle.certificates.specs.Results.{IsGoodTile};
    ghost use Rattle.raster_model.specs.declared.script.Command.TheVariants.{Change, Show};
    ghost use Rattle.seam_regions.specs.Regions.{AreRegionsOf};
    ghost use Rattle.std.specs.Arc.{arc_value};
    ghost use Rattle.std.specs.Prelude.{◌≡◌, ◌↔◌, IfErr, IfNone, IfOk, IfSome, IsTrue, OnErr, OnOk, Some, length, map, option_map};
    ghost use Rattle.surface_snapshots.specs.Views.{parts_of};
    ghost use Rattle.tile_board.specs.declared.answers.PublishFault.TheVariants.{Memory};
    ghost use Rattle.tile_board.specs.declared.entry.Entry.TheVariants.{Published};
    ghost use Rattle.tile_board.specs.Boards.{IsBoard, IsSurfaceOf};
    ghost use Rattle.tile_board.specs.Calls.{
      AddsAlone,
      AreClaims,
      AreKeptResults,
      ArePublishable,
      HasAdvanceFault,
      HasClaimFault,
      HasGatherFault,
      HasKeepFault,
      HasMadeFault,
      HasPublishFault,
      IsAdvance,
      IsClaim,
      IsFreshAt,
      IsGathering,
      IsKeep,
      IsMadeSurface,
      IsMadePublication,
      IsMaskNow,
      IsNew,
      IsPresentMask,
      IsPublication,
      MayKeep,
      MaySettle,
      WasGood,
      WasMask,
      lacking_count,
      mask_now,
    };
    ghost use Rattle.tile_board.specs.Histories.{
      AreAllKept,
      IsComplete,
      IsLeastLacking,
      IsStep,
      done_by,
      newest_of,
      next_command,
      now_of,
    };
    ghost use Rattle.tile_board.specs.Lacking.{AreDifferent, lacks_in};
    ghost use Rattle.tile_board.specs.States.{AddsSurface, HasSurfaceFault, IsWithoutOthers};
    ghost use Rattle.tile_board.specs.Surfaces.{last_surface};

    /// A board with an empty history. It fails only for lack of memory.
    pub fn new(alloc: Global, session: Arc<Session>) -> Result<Board, AllocError>
        ensures { IfOk result (IsNew (arc_value session)) }
    {
        let tiling = session.scene.tiling;
        let tiles = tiling.tile_count();
        let first = session.first_mask.try_copy(alloc)?;
        let revisions = Revisions::new(alloc, first, tiling)?;
        let kept = KeptResults::none(alloc, tiles)?;
        let lacking = LackingTiles::all(alloc, tiles)?;
        let cursors = vec![in alloc; 0; session.scripts.len()]?;
        Ok(Board {
            session,
            revisions,
            kept,
            lacking,
            cursors,
            newest: None,
            entries: Vec::new(alloc),
            snapshots: Vec::new(alloc),
        })
    }

    /// Gives a tile to solve: one that is not kept and, of these, was claimed least often at its stamp. With it come
    /// its stamp and its window of the present mask. `Memory` is returned only if there is such a tile. What contracts
    /// see of the board does not change.
    pub fn claim(&mut self, alloc: Global) -> Result<Ticket, ClaimFault>
        ensures claimed { IfOk result (IsClaim self.old) }
        ensures refused { IfErr result (HasClaimFault self.old) }
        ensures unchanged { self.new ≡ self.old }
    {
        let Some(tile) = self.lacking.first() else {
            return Err(ClaimFault::NoJob);
        };
        self.claim_tile(alloc, tile)
    }

    /// Gives several tiles to solve, no two of them the same: one part of those that are not kept, if they are divided
    /// into `parts`, but at most `most`, and at least one. With no parts it is as with one part. They are those that were
    /// claimed least often. `Memory` is returned only if there is a tile that is not kept. What contracts see of the board
    /// does not change.
    pub fn claim_share(
        &mut self,
        alloc: Global,
        parts: u32,
        most: u32,
    ) -> Result<Vec<Ticket>, ClaimFault>
        ensures claimed { IfOk result (λ tickets. AreClaims self.old parts most tickets.items) }
        ensures refused { IfErr result (HasClaimFault self.old) }
        ensures unchanged { self.new ≡ self.old }
    {
        let tiles = self.share_tiles(alloc, parts, most)?;
        let mut tickets = Vec::new(alloc);
        for &tile in &tiles {
            let ticket = self.claim_tile(alloc, tile)?;
            tickets.reserve(1)?;
            push_within(&mut tickets, ticket);
        }
        Ok(tickets)
    }

    /// Keeps a result for its tile, if it is good under the present mask, and adds an entry. A refusal changes nothing.
    pub fn keep(&mut self, alloc: Global, solved: TileResult) -> Result<(), KeepFault>
        ensures kept { OnOk result (IsKeep self.old self.new solved) }
        ensures refused { IfErr result (HasKeepFault self.old solved) }
        ensures unchanged { OnErr result (self.new ≡ self.old) }
    {
        self.judge(&solved)?;
        self.keep_good(alloc, solved)
    }

    /// Keeps a result as `keep` does, without checking it again: it was good at an earlier point of the history at
    /// which its tile had the result's stamp. If the tile still has that stamp, its mask is still the same.
    pub fn keep_solved(&mut self, alloc: Global, solved: TileResult) -> Result<(), KeepFault>
        requires good { WasGood self.old solved }
        ensures kept { OnOk result (IsKeep self.old self.new solved) }
        ensures refused { IfErr result (HasKeepFault self.old solved) }
        ensures unchanged { OnErr result (self.new ≡ self.old) }
    {
        self.may_keep(&solved)?;
        self.keep_good(alloc, solved)
    }

    /// Gathers what the present revision's offsets are found from: a copy of the present mask, and every tile's kept
    /// result, which is shared. It is refused if a tile has no kept result.
    pub fn gather(&self, alloc: Global) -> Result<Gathered, GatherFault>
        ensures gathered { IfOk result (IsGathering self.now) }
        ensures refused { IfErr result (HasGatherFault self.now) }
    {
        let tiles = self.results(alloc)?;
        let mask = self.revisions.mask_copy(alloc)?;
        let session = self.session.clone()?;
        Ok(Gathered {
            session,
            revision: self.revisions.count(),
            mask,
            tiles,
        })
    }

    /// A copy of the present revision's mask. It is refused only for lack of memory.
    pub fn present_mask(&self, alloc: Global) -> Result<PresentMask, AllocError>
        ensures { IfOk result (IsPresentMask self.now) }
    {
        let session = self.session.clone()?;
        let revisions = &self.revisions;
        let mask = revisions.mask_copy(alloc)?;
        Ok(PresentMask {
            session,
            revision: revisions.count(),
            mask,
        })
    }

    /// Does an analyst's settle command: publishes the surface that the kept results and `seams` make under the present
    /// mask. It adds an entry and the surface. A refusal changes nothing.
    pub fn publish(
        &mut self,
        alloc: Global,
        analyst: u32,
        seams: SeamResult,
    ) -> Result<(), PublishFault>
        ensures published { OnOk result (IsPublication self.old self.new analyst seams) }
        ensures refused { IfErr result (HasPublishFault self.old analyst seams) }
        ensures unchanged { OnErr result (self.new ≡ self.old) }
    {
        let revision = seams.revision;
        self.may_publish(analyst, revision)?;
        let snapshot = self.surface(alloc, seams)?;
        self.add_surface(analyst, revision, snapshot)
    }

    /// Publishes a certified surface that was made of a session like the board's, over a mask that was the present one at
    /// this or an earlier point of the history, when its revision was the present one. If it still is, it is the present
    /// mask. The results that the surface is made of are good, and need not be those that are kept. A refusal is as of
    /// `publish`, and never `Uncertified`.
    pub fn publish_made(&mut self, analyst: u32, surface: Snapshot) -> Result<(), PublishFault>
        requires made { IsMadeSurface self.old.session (parts_of surface) }
        requires mask { WasMask self.old (parts_of surface).mask (parts_of surface).seams.revision }
        ensures published { OnOk result (IsMadePublication self.old self.new analyst (parts_of surface)) }
        ensures refused { IfErr result (HasMadeFault self.old analyst (parts_of surface).seams.revision) }
        ensures unchanged { OnErr result (self.new ≡ self.old) }
    {
        let revision = surface.revision();
        self.may_publish(analyst, revision)?;
        if let Some(tile) = self.first_lacking() {
            return Err(PublishFault::Unready(tile));
        }
        self.add_surface(analyst, revision, surface)
    }

    /// Does an analyst's next command. A settle command is done only if the present revision is published; otherwise
    /// the answer is `NotYet`. `NotYet`, `Ended` and an error change nothing. Each other answer adds an entry, and
    /// `Memory` is returned only in place of such an answer.
    pub fn advance(&mut self, alloc: Global, analyst: u32) -> Result<Advance, AdvanceFault>
        ensures advanced { IfOk result (IsAdvance self.old self.new analyst) }
        ensures refused { IfErr result (HasAdvanceFault self.old analyst) }
        ensures unchanged { OnErr result (self.new ≡ self.old) }
    {
        match self.next(analyst) {
            Some(Command::Change(edit)) => self.revise(alloc, analyst, edit),
            Some(Command::Settle) => self.settle(analyst),
            Some(Command::Show) => self.show(analyst),
            None => Ok(Advance::Ended),
        }
    }

    /// The history: its entries, the earliest first.
    pub fn entries(&self) -> &[Entry]
        ensures value { result.now ≡ self.now.entries }
        ensures board { IsBoard self.now }
    {
        &self.entries
    }

    /// The published surfaces, in the order of their `Published` entries.
    pub fn snapshots(&self) -> &[Snapshot]
        ensures value { map parts_of result.now ≡ self.now.surfaces }
        ensures board { IsBoard self.now }
    {
        &self.snapshots
    }

    /// The last published surface, with which it shares all that it has; None exactly if nothing is published. It fails only if
    /// too many share that surface.
    pub fn newest_surface(&self) -> Result<Option<Snapshot>, AllocError>
        ensures { IfOk result (λ newest. option_map parts_of newest ≡ last_surface self.now) }
    {
        match self.snapshots.last() {
            Some(snapshot) => Ok(Some(snapshot.share()?)),
            None => Ok(None),
        }
    }

    /// The session that is worked on.
    pub fn session(&self) -> &Arc<Session>
        ensures value { arc_value result.now ≡ self.now.session }
        ensures board { IsBoard self.now }
    {
        &self.session
    }

    /// The present revision: how often the mask was changed.
    pub fn revision(&self) -> u32
        ensures { result ≡ now_of self.now.entries }
    {
        self.revisions.count()
    }

    /// The newest published revision; None exactly if nothing is published.
    pub fn newest(&self) -> Option<u32>
        ensures { result ≡ newest_of self.now.entries }
    {
        self.newest
    }

    /// How many commands an analyst has done. Analysts are numbered from 1.
    pub fn done(&self, analyst: u32) -> u32
        ensures { result ≡ done_by analyst self.now.entries }
    {
        cursor_of(&self.cursors, analyst)
    }

    /// Whether every script is at its end.
    pub fn complete(&self) -> bool
        ensures { IsTrue result ↔ IsComplete self.now.session self.now.entries }
    {
        all_ended(&self.session.scripts, &self.cursors)
    }

    /// The next command of an analyst.
    fn next(&self, analyst: u32) -> Option<Command>
        ensures { result ≡ next_command self.now.session self.now.entries analyst }
    {
        command_at(&self.session.scripts, analyst, self.done(analyst))
    }

    /// The tiles of a share: those that are claimed next.
    fn share_tiles(&self, alloc: Global, parts: u32, most: u32) -> Result<Vec<u32>, ClaimFault>
        ensures count { IfOk result (λ tiles. length tiles.items ≡ share_size (lacking_count self.now) parts most) }
        ensures tiles { IfOk result (λ tiles. AreDifferent (lacks_in self.now.kept) tiles.items) }
        ensures refused { IfErr result (HasClaimFault self.now) }
    {
        let lacking = self.lacking.count();
        if lacking == 0 {
            return Err(ClaimFault::NoJob);
        }
        let count = share_of(lacking, parts, most);
        Ok(self.lacking.next_tiles(alloc, count)?)
    }

    /// Gives a tile that is not kept to solve. It fails only for lack of memory.
    fn claim_tile(&mut self, alloc: Global, tile: u32) -> Result<Ticket, ClaimFault>
        requires { IsTrue (lacks_in self.old.kept tile) }
        ensures tile { IfOk result (λ ticket. ticket.tile ≡ tile) }
        ensures claimed { IfOk result (IsClaim self.old) }
        ensures refused { IfErr result (HasClaimFault self.old) }
        ensures unchanged { self.new ≡ self.old }
    {
        let unmasked = self.revisions.window_mask(alloc, tile)?;
        let session = self.session.clone()?;
        self.lacking.claim(tile)?;
        Ok(Ticket {
            session,
            tile,
            stamp: self.revisions.stamp(tile),
            unmasked,
        })
    }

    /// Whether a result may be kept, or the first reason why not.
    fn judge(&self, solved: &TileResult) -> Result<(), KeepFault>
        ensures good { OnOk result (MayKeep self.now solved.now × IsGoodTile self.now.session.scene (mask_now self.now) solved.now) }
        ensures refused { IfErr result (HasKeepFault self.now solved.now) }
    {
        self.may_keep(solved)?;
        match check_tile(&self.session.scene, self.revisions.mask(), solved) {
            TileVerdict::Good => Ok(()),
            verdict => Err(KeepFault::Uncertified(verdict)),
        }
    }

    /// Whether the entry of a result may come next, or the first reason why not.
    fn may_keep(&self, solved: &TileResult) -> Result<(), KeepFault>
        ensures may { OnOk result (MayKeep self.now solved.now) }
        ensures refused { IfErr result (HasKeepFault self.now solved.now) }
    {
        if solved.tile >= self.session.scene.tiling.tile_count() {
            return Err(KeepFault::Stranger(solved.tile));
        }
        let stamp = self.revisions.stamp(solved.tile);
        if solved.stamp != stamp {
            return Err(KeepFault::Stale(stamp));
        }
        if self.kept.has(solved.tile) {
            return Err(KeepFault::Double);
        }
        Ok(())
    }

    /// Keeps a good result whose entry may come next. It fails only for lack of memory.
    fn keep_good(&mut self, alloc: Global, solved: TileResult) -> Result<(), KeepFault>
        requires may { MayKeep self.old solved }
        requires good { IsGoodTile self.old.session.scene (mask_now self.old) solved }
        ensures kept { OnOk result (IsKeep self.old self.new solved) }
        ensures refused { IfErr result (HasKeepFault self.old solved) }
        ensures unchanged { OnErr result (self.new ≡ self.old) }
    {
        self.entries.reserve(1)?;
        let tile = solved.tile;
        let entry = Entry::Kept {
            tile,
            stamp: solved.stamp,
        };
        let shared = share(alloc, solved)?;
        push_within(&mut self.entries, entry);
        self.kept.keep(tile, shared);
        self.lacking.take_out(tile);
        Ok(())
    }

    /// Whether an analyst's settle command may publish a revision: it is the present one, and not published.
    fn may_publish(&self, analyst: u32, revision: u32) -> Result<(), PublishFault>
        ensures fresh { OnOk result (IsFreshAt self.now analyst revision) }
        ensures refused { IfErr result (HasMadeFault self.now analyst revision) }
    {
        if self.next(analyst) != Some(Command::Settle) {
            return Err(PublishFault::NotSettle);
        }
        let present = self.revision();
        if revision != present {
            return Err(PublishFault::Stale(present));
        }
        if self.newest == Some(revision) {
            return Err(PublishFault::Double(revision));
        }
        Ok(())
    }

    /// The lowest-numbered tile that is not kept.
    fn first_lacking(&self) -> Option<u32>
        ensures found { IfSome result (IsLeastLacking self.now.session self.now.entries) }
        ensures none { IfNone result (AreAllKept self.now.session self.now.entries) }
    {
        self.kept.first_gap()
    }

    /// The kept results of all tiles, which are shared. It is refused if a tile has none.
    fn results(&self, alloc: Global) -> Result<TileSet, GatherFault>
        ensures results { IfOk result (AreKeptResults self.now) }
        ensures ready { OnOk result (AreAllKept self.now.session self.now.entries) }
        ensures refused { IfErr result (HasGatherFault self.now) }
    {
        if let Some(tile) = self.kept.first_gap() {
            return Err(GatherFault::Unready(tile));
        }
        let results = self.kept.shared(alloc)?;
        Ok(TileSet::of_shared(&self.session.scene.tiling, results))
    }

    /// The surface that the kept results and `seams` make under the present mask, if it is certified.
    fn surface(&self, alloc: Global, seams: SeamResult) -> Result<Snapshot, PublishFault>
        requires { seams.revision ≡ now_of self.now.entries }
        ensures parts { IfOk result (λ made. ArePublishable self.now seams (parts_of made)) }
        ensures ready { OnOk result (AreAllKept self.now.session self.now.entries) }
        ensures surface { IfOk result (λ made. IsSurfaceOf self.now.session self.now.entries (parts_of made)) }
        ensures refused { IfErr result (HasSurfaceFault self.now seams) }
    {
        let gathered = self.gather(alloc)?;
        let regions = Regions::of(alloc, &gathered.session.scene.tiling, &gathered.mask)?;
        self.build(alloc, gathered.mask, regions, gathered.tiles, seams)
    }

    /// The surface that all kept results and `seams` make over the present mask and its regions, if it is certified.
    fn build(
        &self,
        alloc: Global,
        mask: Mask,
        regions: Regions,
        tiles: TileSet,
        seams: SeamResult,
    ) -> Result<Snapshot, PublishFault>
        requires present { seams.revision ≡ now_of self.now.entries }
        requires ready { AreAllKept self.now.session self.now.entries }
        requires mask { IsMaskNow self.now mask }
        requires regions { AreRegionsOf self.now.session.scene.tiling mask regions }
        requires tiles { AreKeptResults self.now tiles }
        ensures parts { IfOk result (λ made. ArePublishable self.now seams (parts_of made)) }
        ensures surface { IfOk result (λ made. IsSurfaceOf self.now.session self.now.entries (parts_of made)) }
        ensures refused { IfErr result (HasSurfaceFault self.now seams) }
    {
        let session = self.session.clone()?;
        let earlier = self.snapshots.last();
        Ok(Snapshot::build_beside(alloc, earlier, session, mask, regions, tiles, seams)?)
    }

    /// Adds a surface that may be published, and its entry. It fails only for lack of memory.
    fn add_surface(
        &mut self,
        analyst: u32,
        revision: u32,
        snapshot: Snapshot,
    ) -> Result<(), PublishFault>
        requires step { IsStep self.old.session self.old.entries (Published analyst revision) }
        requires revision { (parts_of snapshot).seams.revision ≡ revision }
        requires surface { IsSurfaceOf self.old.session self.old.entries (parts_of snapshot) }
        ensures added { OnOk result (AddsSurface self.old self.new analyst revision (parts_of snapshot)) }
        ensures starved { IfErr result (λ fault. fault ≡ Memory) }
        ensures unchanged { OnErr result (self.new ≡ self.old) }
    {
        self.entries.reserve(1)?;
        self.snapshots.reserve(1)?;
        push_within(&mut self.entries, Entry::Published { analyst, revision });
        push_within(&mut self.snapshots, snapshot);
        self.newest = Some(revision);
        self.cursors[analyst as usize - 1] += 1;
        Ok(())
    }

    /// Does an analyst's change command.
    fn revise(&mut self, alloc: Global, analyst: u32, edit: Edit) -> Result<Advance, AdvanceFault>
        requires { next_command self.old.session self.old.entries analyst ≡ Some (Change edit) }
        ensures advanced { IfOk result (IsAdvance self.old self.new analyst) }
        ensures refused { IfErr result (HasAdvanceFault self.old analyst) }
        ensures unchanged { OnErr result (self.new ≡ self.old) }
    {
        self.entries.reserve(1)?;
        let met = tiles_met(alloc, &self.session.scene.tiling, edit)?;
        self.lacking.add_fresh(&met, &self.kept)?;
        let Ok(tiles) = self.revisions.push(alloc, edit) else {
            self.lacking.tidy(&met, &self.kept);
            return Err(AdvanceFault::Memory);
        };
        self.kept.empty(&tiles);
        self.lacking.restart(&tiles);
        self.lacking.tidy(&met, &self.kept);
        push_within(&mut self.entries, Entry::Revised { analyst, edit });
        self.cursors[analyst as usize - 1] += 1;
        Ok(Advance::Revised(self.revisions.count()))
    }

    /// Does an analyst's settle command if the present revision is published, and otherwise answers `NotYet`.
    fn settle(&mut self, analyst: u32) -> Result<Advance, AdvanceFault>
        requires { MaySettle self.old analyst }
        ensures advanced { IfOk result (IsAdvance self.old self.new analyst) }
        ensures refused { IfErr result (HasAdvanceFault self.old analyst) }
        ensures unchanged { OnErr result (self.new ≡ self.old) }
    {
        let revision = self.revision();
        if self.newest != Some(revision) {
            return Ok(Advance::NotYet(revision));
        }
        self.add(analyst, Entry::Settled { analyst, revision })?;
        Ok(Advance::Settled(revision))
    }

    /// Does an analyst's show command.
    fn show(&mut self, analyst: u32) -> Result<Advance, AdvanceFault>
        requires { next_command self.old.session self.old.entries analyst ≡ Some Show }
        ensures advanced { IfOk result (IsAdvance self.old self.new analyst) }
        ensures refused { IfErr result (HasAdvanceFault self.old analyst) }
        ensures unchanged { OnErr result (self.new ≡ self.old) }
    {
        let revision = self.newest;
        self.add(analyst, Entry::Shown { analyst, revision })?;
        Ok(Advance::Shown(revision))
    }

    /// Adds an entry of an analyst that changes nothing else.
    fn add(&mut self, analyst: u32, entry: Entry) -> Result<(), AdvanceFault>
        requires step { IsStep self.old.session self.old.entries entry }
        requires alone { IsWithoutOthers analyst entry }
        ensures added { OnOk result (AddsAlone self.old self.new entry) }
        ensures refused { IfErr result (HasAdvanceFault self.old analyst) }
        ensures unchanged { OnErr result (self.new ≡ self.old) }
    {
        self.entries.reserve(1)?;
        push_within(&mut self.entries, entry);
        self.cursors[analyst as usize - 1] += 1;
        Ok(())
    }
}

/// How many tiles a share has, of so many that lack a result.
fn share_of(lacking: usize, parts: u32, most: u32) -> usize
    ensures { result ≡ share_size lacking parts most }
{
    let part = lacking / parts.max(1) as usize;
    part.min(most as usize).max(1)
}
