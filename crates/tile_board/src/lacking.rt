ghost use Rattle.std.specs.BTreeSet.{btree_set_len};
ghost use Rattle.std.specs.Prelude.{◌≡◌, ◌<◌, ◌≤◌, ℕ, Bool, ◌&&◌, ◌==◌, IfOk, IsTrue, List, OnErr, OnOk, length, min, slice_index};
ghost use Rattle.tile_board.specs.Lacking.{
  AreAddedFresh,
  AreAllFresh,
  AreDifferent,
  AreLacking,
  AreLackingWith,
  IsAdded,
  IsKeyTaken,
  IsTakenIfClaimed,
  but_for,
  has_key,
  is_below,
  lacks_in,
  with_listed,
  with_one,
  without_listed,
};

use crate::kept::KeptResults;
use std::alloc::{AllocError, Global};
use std::collections::BTreeSet;
use std::marker::Model;

/// The tiles that lack a result, in the order in which they are claimed: those that were claimed least often come
/// first, and of these the lowest-numbered.
#[derive(Drop)]
pub(crate) struct LackingTiles {
    /// How often a tile was claimed at its stamp, by tile.
    claims: Vec<u32>,
    /// For each tile that lacks a result, how often it was claimed at its stamp, and its number.
    keys: BTreeSet<(u32, u32)>,
}

impl Model for LackingTiles {
    ghost use Rattle.tile_board.specs.Lacking.{LackingView};

    ghost Value = { LackingView };

    ghost view = { λ l. record { claims = l.claims.items; keys = l.keys } };
}

impl LackingTiles {
    ghost use Rattle.std.specs.BTreeSet.{IsOrdered, btree_set_len};
    ghost use Rattle.std.specs.Prelude.{◌≡◌, ◌<◌, ◌≤◌, ℕ, Bool, IfOk, IsTrue, OnErr, OnOk, length, min, slice_index};
    ghost use Rattle.tile_board.specs.Lacking.{
      AreAllFresh,
      AreDifferent,
      AreLacking,
      AreLackingWith,
      IsNextClaim,
      but_for,
      is_below,
      is_listed,
      key_order,
      lacks_in,
      with_listed,
    };

    /// So many tiles, all of which lack a result and none of which was claimed.
    pub(crate) fn all(alloc: Global, tiles: u32) -> Result<LackingTiles, AllocError>
        ensures count { IfOk result (λ made. length made.claims ≡ tiles) }
        ensures keys { IfOk result (λ made. AreLacking (is_below tiles) made.claims made.keys) }
    {
        let claims = vec![in alloc; 0; tiles as usize]?;
        let keys = first_keys(alloc, tiles)?;
        Ok(LackingTiles { claims, keys })
    }

    /// The tile that is claimed next.
    pub(crate) fn first(&self) -> Option<u32>
        ensures { (lacks : ℕ → Bool) → AreLacking lacks self.now.claims self.now.keys → IsNextClaim lacks self.now.claims result }
    {
        match self.keys.first() {
            Some(key) => Some(key.1),
            None => None,
        }
    }

    /// How many tiles lack a result: as many as there are keys.
    pub(crate) fn count(&self) -> usize
        ensures count { result ≡ btree_set_len self.now.keys }
        ensures ordered { IsOrdered key_order self.now.keys }
    {
        self.keys.len()
    }

    /// The tiles that are claimed next: so many of them, or all that lack a result if these are fewer.
    pub(crate) fn next_tiles(&self, alloc: Global, count: usize) -> Result<Vec<u32>, AllocError>
        ensures count { IfOk result (λ tiles. length tiles.items ≡ min count (btree_set_len self.now.keys)) }
        ensures tiles { IfOk result (λ tiles. (lacks : ℕ → Bool) → AreLacking lacks self.now.claims self.now.keys → AreDifferent lacks tiles.items) }
    {
        tiles_of_first(alloc, &self.keys, count)
    }

    /// Counts a claim of a tile that lacks a result.
    pub(crate) fn claim(&mut self, tile: u32) -> Result<(), AllocError>
        requires { tile < length self.old.claims }
        ensures count { length self.new.claims ≡ length self.old.claims }
        ensures keys { (lacks : ℕ → Bool) → IsTrue (lacks tile) → AreLacking lacks self.old.claims self.old.keys → AreLacking lacks self.new.claims self.new.keys }
    {
        let claims = self.claims[tile as usize];
        let Some(more) = claims.checked_add(1) else {
            return Ok(());
        };
        add_key(&mut self.keys, more, tile)?;
        take_key(&mut self.keys, claims, tile);
        self.claims[tile as usize] = more;
        Ok(())
    }

    /// Takes out a tile that got a result.
    pub(crate) fn take_out(&mut self, tile: u32)
        requires { tile < length self.old.claims }
        ensures count { length self.new.claims ≡ length self.old.claims }
        ensures keys { (lacks : ℕ → Bool) → AreLacking lacks self.old.claims self.old.keys → AreLacking (but_for lacks tile) self.new.claims self.new.keys }
    {
        let claims = self.claims[tile as usize];
        take_key(&mut self.keys, claims, tile);
    }

    /// Adds the key with no claims for each tile of a list. If memory is lacking, nothing changes.
    pub(crate) fn add_fresh(&mut self, tiles: &[u32], kept: &KeptResults) -> Result<(), AllocError>
        requires count { length self.old.claims ≡ length kept.now }
        requires exist { (i : ℕ) → i < length tiles.now → slice_index tiles.now i < length kept.now }
        ensures claims { self.new.claims ≡ self.old.claims }
        ensures added { OnOk result ((lacks : ℕ → Bool) → AreLacking lacks self.old.claims self.old.keys → AreLackingWith lacks (is_listed tiles.now (length tiles.now)) self.new.claims self.new.keys) }
        ensures refused { OnErr result (AreLacking (lacks_in kept.now) self.old.claims self.old.keys → AreLacking (lacks_in kept.now) self.new.claims self.new.keys) }
    {
        if let Err(none) = add_fresh(&mut self.keys, tiles) {
            tidy(&mut self.keys, &self.claims, tiles, kept);
            return Err(none);
        }
        Ok(())
    }

    /// Marks tiles as lacking a result and unclaimed. They already have the key with no claims.
    pub(crate) fn restart(&mut self, tiles: &[u32])
        requires { (i : ℕ) → i < length tiles.now → slice_index tiles.now i < length self.old.claims }
        ensures count { length self.new.claims ≡ length self.old.claims }
        ensures keys { (lacks fresh : ℕ → Bool) → AreAllFresh fresh tiles.now (length tiles.now) → AreLackingWith lacks fresh self.old.claims self.old.keys → AreLackingWith (with_listed lacks tiles.now (length tiles.now)) fresh self.new.claims self.new.keys }
    {
        restart(&mut self.claims, &mut self.keys, tiles);
    }

    /// For the tiles of a list, takes out the keys with no claims that do not fit.
    pub(crate) fn tidy(&mut self, tiles: &[u32], kept: &KeptResults)
        requires count { length self.old.claims ≡ length kept.now }
        requires exist { (i : ℕ) → i < length tiles.now → slice_index tiles.now i < length kept.now }
        ensures claims { self.new.claims ≡ self.old.claims }
        ensures keys { (fresh : ℕ → Bool) → ((t : ℕ) → IsTrue (fresh t) → IsTrue (is_listed tiles.now (length tiles.now) t)) → AreLackingWith (lacks_in kept.now) fresh self.old.claims self.old.keys → AreLacking (lacks_in kept.now) self.new.claims self.new.keys }
    {
        tidy(&mut self.keys, &self.claims, tiles, kept);
    }
}

/// Adds a key.
fn add_key(keys: &mut BTreeSet<(u32, u32)>, claims: u32, tile: u32) -> Result<(), AllocError>
    ensures added { OnOk result (IsAdded keys.old keys.new claims tile) }
    ensures refused { OnErr result ((c t : ℕ) → has_key keys.new c t ≡ has_key keys.old c t) }
{
    keys.insert((claims, tile))?;
    Ok(())
}

/// Takes a key out, if it is there.
fn take_key(keys: &mut BTreeSet<(u32, u32)>, claims: u32, tile: u32)
    ensures { IsKeyTaken keys.old keys.new claims tile }
{
    keys.remove(&(claims, tile));
}

/// The keys of so many tiles, none of which was claimed.
fn first_keys(alloc: Global, tiles: u32) -> Result<BTreeSet<(u32, u32)>, AllocError>
    ensures { IfOk result (λ keys. (c t : ℕ) → has_key keys c t ≡ (is_below tiles t && (c == 0))) }
{
    let mut keys = BTreeSet::new(alloc);
    for tile in 0..tiles {
        add_key(&mut keys, 0, tile)?;
    }
    Ok(keys)
}

/// The tiles of the first keys: of so many, or of all if there are fewer.
fn tiles_of_first(
    alloc: Global,
    keys: &BTreeSet<(u32, u32)>,
    count: usize,
) -> Result<Vec<u32>, AllocError>
    ensures count { IfOk result (λ tiles. length tiles.items ≡ min count (btree_set_len keys.now)) }
    ensures tiles { IfOk result (λ tiles. (lacks : ℕ → Bool) (claims : List ℕ) → AreLacking lacks claims keys.now → AreDifferent lacks tiles.items) }
{
    let mut tiles = Vec::new(alloc);
    let mut rest = keys.iter();
    for _place in 0..count {
        let Some(key) = rest.next() else {
            return Ok(tiles);
        };
        tiles.push(key.1)?;
    }
    Ok(tiles)
}

/// Adds the key with no claims for each tile of a list.
fn add_fresh(keys: &mut BTreeSet<(u32, u32)>, tiles: &[u32]) -> Result<(), AllocError>
    ensures added { OnOk result (AreAddedFresh keys.old keys.new tiles.now (length tiles.now)) }
    ensures begun { OnErr result ((n : ℕ) × (n ≤ length tiles.now) × AreAddedFresh keys.old keys.new tiles.now n) }
{
    for &tile in tiles {
        add_key(keys, 0, tile)?;
    }
    Ok(())
}

/// Marks each tile of a list as lacking a result and unclaimed.
fn restart(claims: &mut [u32], keys: &mut BTreeSet<(u32, u32)>, tiles: &[u32])
    requires { (i : ℕ) → i < length tiles.now → slice_index tiles.now i < length claims.old }
    ensures { (lacks fresh : ℕ → Bool) → AreAllFresh fresh tiles.now (length tiles.now) → AreLackingWith lacks fresh claims.old keys.old → AreLackingWith (with_listed lacks tiles.now (length tiles.now)) fresh claims.new keys.new }
{
    for &tile in tiles {
        restart_one(claims, keys, tile);
    }
}

/// Marks a tile as lacking a result and unclaimed.
fn restart_one(claims: &mut [u32], keys: &mut BTreeSet<(u32, u32)>, tile: u32)
    requires { tile < length claims.old }
    ensures { (lacks fresh : ℕ → Bool) → IsTrue (fresh tile) → AreLackingWith lacks fresh claims.old keys.old → AreLackingWith (with_one lacks tile) fresh claims.new keys.new }
{
    take_claimed(keys, claims[tile as usize], tile);
    claims[tile as usize] = 0;
}

/// Takes a tile's key out, except if the tile is unclaimed.
fn take_claimed(keys: &mut BTreeSet<(u32, u32)>, claims: u32, tile: u32)
    ensures { IsTakenIfClaimed keys.old keys.new claims tile }
{
    if claims == 0 {
        return;
    }
    take_key(keys, claims, tile);
}

/// For the tiles of a list, takes out the keys with no claims that do not fit.
fn tidy(keys: &mut BTreeSet<(u32, u32)>, claims: &[u32], tiles: &[u32], kept: &KeptResults)
    requires count { length claims.now ≡ length kept.now }
    requires exist { (i : ℕ) → i < length tiles.now → slice_index tiles.now i < length kept.now }
    ensures { (fresh : ℕ → Bool) → AreLackingWith (lacks_in kept.now) fresh claims.now keys.old → AreLackingWith (lacks_in kept.now) (without_listed fresh tiles.now (length tiles.now)) claims.now keys.new }
{
    for &tile in tiles {
        tidy_one(keys, claims, tile, kept);
    }
}

/// Takes out a tile's key with no claims, if it does not fit.
fn tidy_one(keys: &mut BTreeSet<(u32, u32)>, claims: &[u32], tile: u32, kept: &KeptResults)
    requires count { length claims.now ≡ length kept.now }
    requires exists { tile < length kept.now }
    ensures { (fresh : ℕ → Bool) → AreLackingWith (lacks_in kept.now) fresh claims.now keys.old → AreLackingWith (lacks_in kept.now) (but_for fresh tile) claims.now keys.new }
{
    if is_unclaimed(claims, tile, kept) {
        return;
    }
    take_key(keys, 0, tile);
}

/// Whether a tile lacks a result and is unclaimed.
fn is_unclaimed(claims: &[u32], tile: u32, kept: &KeptResults) -> bool
    requires count { length claims.now ≡ length kept.now }
    requires exists { tile < length kept.now }
    ensures { result ≡ (lacks_in kept.now tile && (slice_index claims.now tile == 0)) }
{
    if kept.has(tile) {
        return false;
    }
    claims[tile as usize] == 0
}
