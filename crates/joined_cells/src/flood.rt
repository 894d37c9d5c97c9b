ghost use Rattle.joined_cells.specs.Flood.{IsFlood};
ghost use Rattle.std.specs.Prelude.{◌+◌, ◌*◌, ◌<◌, IsTrue};

use crate::edge_test::EdgeTest;
use crate::forest::{hang, join};
use raster_model::Edge;

/// Joins the pixels of each tree.
pub(crate) fn join_all<T: EdgeTest>(parents: &mut [u32], test: &T)
    requires joined { IsFlood (T.joining test.now) 0 parents.old }
    ensures { IsFlood (T.joining test.now) (2 * ((T.joining test.now).height * (T.joining test.now).width)) parents.new }
{
    for y in 0..test.height() {
        join_row(parents, test, y);
    }
}

/// Joins the pixels of row `y` to each other and to those of the row above.
fn join_row<T: EdgeTest>(parents: &mut [u32], test: &T, y: u32)
    requires row { y < (T.joining test.now).height }
    requires joined { IsFlood (T.joining test.now) (2 * (y * (T.joining test.now).width)) parents.old }
    ensures { IsFlood (T.joining test.now) (2 * ((y + 1) * (T.joining test.now).width)) parents.new }
{
    for x in 0..test.width() {
        join_pixel(parents, test, x, y);
    }
}

/// Joins the pixel in column `x` and row `y` to its left and its upper neighbour.
fn join_pixel<T: EdgeTest>(parents: &mut [u32], test: &T, x: u32, y: u32)
    requires across { x < (T.joining test.now).width }
    requires along { y < (T.joining test.now).height }
    requires joined { IsFlood (T.joining test.now) (2 * (y * (T.joining test.now).width + x)) parents.old }
    ensures { IsFlood (T.joining test.now) (2 * (y * (T.joining test.now).width + x + 1)) parents.new }
{
    if !test.is_open(x, y) {
        return;
    }
    join_left(parents, test, x, y);
    join_upper(parents, test, x, y);
}

/// Joins an open pixel to its left neighbour, if their edge does.
fn join_left<T: EdgeTest>(parents: &mut [u32], test: &T, x: u32, y: u32)
    requires across { x < (T.joining test.now).width }
    requires along { y < (T.joining test.now).height }
    requires unmasked { IsTrue ((T.joining test.now).mask x y) }
    requires joined { IsFlood (T.joining test.now) (2 * (y * (T.joining test.now).width + x)) parents.old }
    ensures { IsFlood (T.joining test.now) (2 * (y * (T.joining test.now).width + x) + 1) parents.new }
{
    if x == 0 {
        return;
    }
    let edge = Edge {
        x: x - 1,
        y,
        down: false,
    };
    if test.joins(edge) {
        let place = y * test.width() + x;
        hang(parents, place, place - 1);
    }
}

/// Joins an open pixel to its upper neighbour, if their edge does.
fn join_upper<T: EdgeTest>(parents: &mut [u32], test: &T, x: u32, y: u32)
    requires across { x < (T.joining test.now).width }
    requires along { y < (T.joining test.now).height }
    requires unmasked { IsTrue ((T.joining test.now).mask x y) }
    requires joined { IsFlood (T.joining test.now) (2 * (y * (T.joining test.now).width + x) + 1) parents.old }
    ensures { IsFlood (T.joining test.now) (2 * (y * (T.joining test.now).width + x + 1)) parents.new }
{
    if y == 0 {
        return;
    }
    let edge = Edge {
        x,
        y: y - 1,
        down: true,
    };
    if test.joins(edge) {
        let width = test.width();
        let place = y * width + x;
        join(parents, place - width, place);
    }
}
