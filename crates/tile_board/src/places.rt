ghost use Rattle.std.specs.Prelude.{◌≡◌, ◌+◌, ◌<◌, ◌^◌, ◌++◌, ◌∷◌, ℕ, [], Bool, IfOk, IfSome, MatchOption, None, length, replicate, slice_get, slice_index, vec_capacity, vec_len, ⊤};
ghost use Rattle.tile_board.specs.Places.{AreSet};
ghost use Rattle.tile_board.specs.States.{HaveResults, IsFirstGap, IsGap};

use std::alloc::{AllocError, Global};

/// A list of so many places without an item. It fails only for lack of memory.
pub fn no_items<T: Drop>(alloc: Global, places: u32) -> Result<Vec<Option<T>>, AllocError>
    ensures { IfOk result (λ items. items.items ≡ replicate places None) }
{
    let mut items = Vec::with_capacity(alloc, places as usize)?;
    for _place in 0..places {
        items.push(None)?;
    }
    Ok(items)
}

/// The lowest-numbered tile that has no result.
pub fn first_gap<T>(kept: &[Option<T>]) -> Option<u32>
    requires { length kept.now < 2 ^ 32 }
    ensures { MatchOption result (HaveResults kept.now) (IsFirstGap kept.now) }
{
    for (tile, place) in kept.iter().enumerate() {
        if place.is_none() {
            return Some(tile as u32);
        }
    }
    None
}

/// Takes away the results of some tiles.
pub fn empty<T: Drop>(kept: &mut [Option<T>], tiles: &[u32])
    requires { (i : ℕ) → i < length tiles.now → slice_index tiles.now i < length kept.old }
    ensures { AreSet kept.old kept.new tiles.now (length tiles.now) None }
{
    for &tile in tiles {
        kept[tile as usize] = None;
    }
}

/// Sets some places of a list to a value.
pub fn set_all<T: Copy>(items: &mut [T], places: &[u32], value: T)
    requires { (i : ℕ) → i < length places.now → slice_index places.now i < length items.old }
    ensures { AreSet items.old items.new places.now (length places.now) value }
{
    for &place in places {
        items[place as usize] = value;
    }
}

/// Adds an item to a list that has room for it, so no memory is needed.
pub fn push_within<T: Drop>(items: &mut Vec<T>, item: T)
    requires { vec_len items.old < vec_capacity items.old }
    ensures items { items.new.items ≡ items.old.items ++ item ∷ [] }
{
    let _added = items.push(item);
}
