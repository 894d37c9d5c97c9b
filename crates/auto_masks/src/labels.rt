ghost use Rattle.auto_masks.specs.Flood.{HasJoined, HasNumbered};
ghost use Rattle.raster_model.specs.Limits.{max_pixels};
ghost use Rattle.std.specs.Prelude.{◌≡◌, ◌+◌, ◌*◌, ◌<◌, ◌≤◌, IfOk, length};

use crate::extent::Extent;
use crate::flood::{is_keyless, join_all};
use joined_cells::{number_place, own_parents};
use std::alloc::{AllocError, Global};

/// For each pixel the number of its patch, or `u32::MAX` if its key is 0, and how many numbers are given.
#[derive(Drop)]
pub struct Numbers {
    pub labels: Vec<u32>,
    pub count: u32,
}

/// Numbers the patches of the keys from 0 in the row order of their first pixels.
pub fn number_patches(alloc: Global, extent: Extent, keys: &[i64]) -> Result<Numbers, AllocError>
    requires { length keys.now ≡ extent.width * extent.height }
    ensures numbers { IfOk result (λ made. HasNumbered extent keys.now (extent.height * extent.width) made.count made.labels.items) }
    ensures few { IfOk result (λ made. made.count ≤ extent.height * extent.width) }
{
    let mut labels = own_parents(alloc, extent.width * extent.height)?;
    join_all(&mut labels, extent, keys);
    let count = number_all(&mut labels, extent, keys);
    Ok(Numbers { labels, count })
}

/// Replaces each pixel's parent by the number of its tree, or by `u32::MAX` if its key is 0. Trees are numbered from 0
/// in the order of their roots. The result is how many numbers are given.
fn number_all(labels: &mut [u32], extent: Extent, keys: &[i64]) -> u32
    requires keys { length keys.now ≡ extent.width * extent.height }
    requires joined { HasJoined extent keys.now (2 * (extent.height * extent.width)) labels.old }
    ensures numbers { HasNumbered extent keys.now (extent.height * extent.width) result labels.new }
    ensures few { result ≤ extent.height * extent.width }
{
    let mut count = 0;
    for place in 0..(extent.height * extent.width) as usize {
        count = number_pixel(labels, extent, keys, place, count);
    }
    count
}

/// Numbers the pixel at a place. The result is how many numbers are given then.
fn number_pixel(labels: &mut [u32], extent: Extent, keys: &[i64], place: usize, count: u32) -> u32
    requires within { (place < length labels.old) × (place < length keys.now) }
    requires room { count ≤ max_pixels }
    requires numbered { HasNumbered extent keys.now place count labels.old }
    ensures { HasNumbered extent keys.now (place + 1) result labels.new }
{
    if is_keyless(keys, place) {
        labels[place] = u32::MAX;
        return count;
    }
    number_place(labels, place, count)
}
