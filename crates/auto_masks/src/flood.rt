ghost use Rattle.auto_masks.specs.Flood.{HasJoined};
ghost use Rattle.auto_masks.specs.Patches.{key_at};
ghost use Rattle.std.specs.Prelude.{◌≡◌, ◌+◌, ◌-◌, ◌*◌, ◌<◌, ◌≤◌, ◌↔◌, ℤ, pos, IsTrue, length, slice_index_or};

use crate::extent::Extent;
use joined_cells::{hang, join};

/// Joins the pixels of each patch into one tree.
pub fn join_all(parents: &mut [u32], extent: Extent, keys: &[i64])
    requires keys { length keys.now ≡ extent.width * extent.height }
    requires joined { HasJoined extent keys.now 0 parents.old }
    ensures { HasJoined extent keys.now (2 * (extent.height * extent.width)) parents.new }
{
    for y in 0..extent.height {
        join_row(parents, extent, keys, y);
    }
}

/// Joins the pixels of row `y` to each other and to those of the row above.
fn join_row(parents: &mut [u32], extent: Extent, keys: &[i64], y: u32)
    requires keys { length keys.now ≡ extent.width * extent.height }
    requires row { y < extent.height }
    requires joined { HasJoined extent keys.now (2 * (y * extent.width)) parents.old }
    ensures { HasJoined extent keys.now (2 * ((y + 1) * extent.width)) parents.new }
{
    for x in 0..extent.width {
        join_pixel(parents, extent, keys, x, y);
    }
}

/// Joins the pixel in column `x` and row `y` to its left and its upper neighbour.
fn join_pixel(parents: &mut [u32], extent: Extent, keys: &[i64], x: u32, y: u32)
    requires keys { length keys.now ≡ extent.width * extent.height }
    requires pixel { (x < extent.width) × (y < extent.height) }
    requires joined { HasJoined extent keys.now (2 * (y * extent.width + x)) parents.old }
    ensures { HasJoined extent keys.now (2 * (y * extent.width + x + 1)) parents.new }
{
    if is_keyless(keys, (y * extent.width + x) as usize) {
        return;
    }
    join_left(parents, extent, keys, x, y);
    join_upper(parents, extent, keys, x, y);
}

/// Joins a pixel to its left neighbour, if that has the same key.
fn join_left(parents: &mut [u32], extent: Extent, keys: &[i64], x: u32, y: u32)
    requires keys { length keys.now ≡ extent.width * extent.height }
    requires pixel { (x < extent.width) × (y < extent.height) }
    requires keyed { ¬ (key_at extent.width keys.now x y ≡ pos 0) }
    requires joined { HasJoined extent keys.now (2 * (y * extent.width + x)) parents.old }
    ensures { HasJoined extent keys.now (2 * (y * extent.width + x) + 1) parents.new }
{
    if x == 0 {
        return;
    }
    let place = y * extent.width + x;
    if have_one_key(keys, place as usize - 1, place as usize) {
        hang(parents, place, place - 1);
    }
}

/// Joins a pixel to its upper neighbour, if that has the same key.
fn join_upper(parents: &mut [u32], extent: Extent, keys: &[i64], x: u32, y: u32)
    requires keys { length keys.now ≡ extent.width * extent.height }
    requires pixel { (x < extent.width) × (y < extent.height) }
    requires keyed { ¬ (key_at extent.width keys.now x y ≡ pos 0) }
    requires joined { HasJoined extent keys.now (2 * (y * extent.width + x) + 1) parents.old }
    ensures { HasJoined extent keys.now (2 * (y * extent.width + x + 1)) parents.new }
{
    if y == 0 {
        return;
    }
    let place = y * extent.width + x;
    let above = place - extent.width;
    if !have_one_key(keys, above as usize, place as usize) {
        return;
    }
    // a walk over the left neighbours joins them already
    if has_square(extent, keys, x, y) {
        return;
    }
    join(parents, above, place);
}

/// Whether the pixel at a place has the key 0.
pub fn is_keyless(keys: &[i64], place: usize) -> bool
    requires { place < length keys.now }
    ensures { IsTrue result ↔ slice_index_or keys.now place (pos 0) ≡ pos 0 }
{
    keys[place] == 0
}

/// Whether the pixels at two places have one key.
fn have_one_key(keys: &[i64], first: usize, second: usize) -> bool
    requires { (first < length keys.now) × (second < length keys.now) }
    ensures { IsTrue result ↔ slice_index_or keys.now first (pos 0) ≡ slice_index_or keys.now second (pos 0) }
{
    keys[first] == keys[second]
}

/// Whether a pixel and its upper neighbour have the keys of their left neighbours, and these have one key.
fn has_square(extent: Extent, keys: &[i64], x: u32, y: u32) -> bool
    requires keys { length keys.now ≡ extent.width * extent.height }
    requires pixel { (x < extent.width) × (y < extent.height) }
    requires below { 1 ≤ y }
    ensures after { IsTrue result → 1 ≤ x }
    ensures own { IsTrue result → key_at extent.width keys.now (x - 1) y ≡ key_at extent.width keys.now x y }
    ensures upper { IsTrue result → key_at extent.width keys.now (x - 1) (y - 1) ≡ key_at extent.width keys.now x y }
{
    if x == 0 {
        return false;
    }
    let place = (y * extent.width + x) as usize;
    let left = place - 1;
    let key = keys[place];
    keys[left] == key && keys[left - extent.width as usize] == key
}
