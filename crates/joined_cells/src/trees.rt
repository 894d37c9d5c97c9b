ghost use Rattle.joined_cells.specs.Flood.{IsFlood, IsNumbered};
ghost use Rattle.joined_cells.specs.Trees.{HasTreeNumbers};
ghost use Rattle.std.specs.Prelude.{◌+◌, ◌*◌, ◌<◌, ◌≤◌, IfOk};

use crate::edge_test::EdgeTest;
use crate::flood::join_all;
use crate::forest::own_parents;
use crate::numbers::number_place;
use std::alloc::{AllocError, Global};

/// For each pixel in row order the number of its tree, or `u32::MAX` if it is masked, and how many numbers are given.
#[derive(Drop)]
pub struct Trees {
    pub labels: Vec<u32>,
    pub count: u32,
}

/// Numbers the trees of joined pixels, from 0 in the row order of their first pixels. It fails only for lack of memory.
pub fn number_trees<T: EdgeTest>(alloc: Global, test: &T) -> Result<Trees, AllocError>
    ensures { IfOk result (λ made. HasTreeNumbers (T.joining test.now) made.labels.items made.count) }
{
    let mut labels = own_parents(alloc, test.width() * test.height())?;
    join_all(&mut labels, test);
    let count = number_all(&mut labels, test);
    Ok(Trees { labels, count })
}

/// Replaces each pixel's parent by the number of its tree, or by `u32::MAX` if it is masked. The result is how many
/// numbers are given.
fn number_all<T: EdgeTest>(labels: &mut [u32], test: &T) -> u32
    requires joined { IsFlood (T.joining test.now) (2 * ((T.joining test.now).height * (T.joining test.now).width)) labels.old }
    ensures { IsNumbered (T.joining test.now) ((T.joining test.now).height * (T.joining test.now).width) result labels.new }
{
    let mut count = 0;
    for y in 0..test.height() {
        count = number_row(labels, test, y, count);
    }
    count
}

/// Numbers the pixels of row `y`, where `count` numbers are given before it. The result is how many are given then.
fn number_row<T: EdgeTest>(labels: &mut [u32], test: &T, y: u32, count: u32) -> u32
    requires row { y < (T.joining test.now).height }
    requires numbered { IsNumbered (T.joining test.now) (y * (T.joining test.now).width) count labels.old }
    ensures { IsNumbered (T.joining test.now) ((y + 1) * (T.joining test.now).width) result labels.new }
{
    let mut count = count;
    for x in 0..test.width() {
        count = number_pixel(labels, test, x, y, count);
    }
    count
}

/// Numbers the pixel (`x`, `y`). The result is how many numbers are given then.
fn number_pixel<T: EdgeTest>(labels: &mut [u32], test: &T, x: u32, y: u32, count: u32) -> u32
    requires across { x < (T.joining test.now).width }
    requires along { y < (T.joining test.now).height }
    requires numbered { IsNumbered (T.joining test.now) (y * (T.joining test.now).width + x) count labels.old }
    ensures { IsNumbered (T.joining test.now) (y * (T.joining test.now).width + x + 1) result labels.new }
{
    let place = (y * test.width() + x) as usize;
    if !test.is_open(x, y) {
        labels[place] = u32::MAX;
        return count;
    }
    number_place(labels, place, count)
}
