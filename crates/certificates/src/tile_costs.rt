ghost use Rattle.certificates.specs.TileWords.{
  AreColumnsOpen,
  AreEndsOpen,
  AreRowsOpen,
  IsColumnOpen,
  TileFollowsDown,
  TileFollowsRight,
  KnowsTile,
  cost_at,
  cost_in,
};
ghost use Rattle.raster_model.specs.Sums.{sum_row};
ghost use Rattle.raster_model.specs.Tiles.{IsWithin};
ghost use Rattle.std.specs.Prelude.{◌≡◌, ◌+◌, ◌*◌, ◌<◌, ◌≤◌, ◌^◌, IsTrue, pos};

use crate::edge_costs::edge_cost;
use crate::tile::Tile;
use raster_model::{Edge, Heights, MAX_CYCLE_COST, MAX_DEPARTURE, MAX_SIDE};

impl Tile<'_> {
    /// What the edges that start at a pixel add to the tile's cost. If `unmasked` is true, the ends of these edges are known to
    /// be open.
    fn cost_from<H: Heights>(&self, heights: &H, x: u32, y: u32, unmasked: bool) -> u128
        requires within { IsWithin self.now.window x y }
        requires known { KnowsTile self.now (H.knows heights.now) }
        requires unmasked { IsTrue unmasked → AreEndsOpen self.now x y }
        ensures value { pos result ≡ cost_at self.now (H.cycles_at heights.now) x y }
        ensures small { result ≤ 2 * MAX_CYCLE_COST * MAX_DEPARTURE }
    {
        let to_right = if x < self.window.x1 {
            let edge = Edge { x, y, down: false };
            edge_cost(&self.sheet, self.mask, heights, edge, unmasked)
        } else {
            0
        };
        let to_lower = if y < self.window.y1 {
            let edge = Edge { x, y, down: true };
            edge_cost(&self.sheet, self.mask, heights, edge, unmasked)
        } else {
            0
        };
        to_right + to_lower
    }

    /// Whether the surface departs at no right edge of row `y`, whose pixels are open. The loop does not stop at the
    /// first edge at which it departs, so that several can be judged at once.
    fn follows_right<H: Heights>(&self, heights: &H, y: u32) -> bool
        requires row { (self.now.window.y0 ≤ y) × (y ≤ self.now.window.y1) }
        requires known { KnowsTile self.now (H.knows heights.now) }
        requires unmasked { AreRowsOpen self.now y }
        ensures { IsTrue result → TileFollowsRight self.now (H.cycles_at heights.now) y self.now.window.x1 }
    {
        let mut departs = false;
        for x in self.window.x0..self.window.x1 {
            let edge = Edge { x, y, down: false };
            departs |= self.sheet.departure(heights, edge) != 0;
        }
        !departs
    }

    /// Whether the surface departs at no down edge of row `y`. The row is not the tile's last, and its pixels and those
    /// of the next row are open.
    fn follows_down<H: Heights>(&self, heights: &H, y: u32) -> bool
        requires row { (self.now.window.y0 ≤ y) × (y < self.now.window.y1) }
        requires known { KnowsTile self.now (H.knows heights.now) }
        requires unmasked { AreRowsOpen self.now y }
        ensures { IsTrue result → TileFollowsDown self.now (H.cycles_at heights.now) y (self.now.window.x1 + 1) }
    {
        let mut departs = false;
        for x in self.window.x0..self.window.x1 + 1 {
            let edge = Edge { x, y, down: true };
            departs |= self.sheet.departure(heights, edge) != 0;
        }
        !departs
    }

    /// Whether the edges that start in row `y` are known to add nothing to the tile's cost: the pixels of this row and
    /// of the next are open, and the surface departs at none of the edges.
    fn is_free<H: Heights>(&self, heights: &H, y: u32, unmasked: bool) -> bool
        requires row { (self.now.window.y0 ≤ y) × (y ≤ self.now.window.y1) }
        requires known { KnowsTile self.now (H.knows heights.now) }
        requires unmasked { IsTrue unmasked → AreRowsOpen self.now y }
        ensures { IsTrue result → pos 0 ≡ sum_row self.now.sheet.phase.now.width (cost_at self.now (H.cycles_at heights.now)) y }
    {
        if !unmasked || !self.follows_right(heights, y) {
            return false;
        }
        y == self.window.y1 || self.follows_down(heights, y)
    }

    /// Whether the pixels of a column in row `y` and in the next row are open. Row `y` is not the tile's last.
    fn is_column_open(&self, x: u32, y: u32) -> bool
        requires within { IsWithin self.now.window x y }
        requires inside { y < self.now.window.y1 }
        ensures { IsTrue result → IsColumnOpen self.now y x }
    {
        self.mask.is_open(x, y) && self.mask.is_open(x, y + 1)
    }

    /// The last of the columns from `x` on that are open in row `y` and in the next one, as far as they go on without a gap;
    /// `x` itself if there is none, or if the row is the tile's last.
    fn open_until(&self, x: u32, y: u32) -> u32
        requires within { IsWithin self.now.window x y }
        ensures place { (x ≤ result) × (result ≤ self.now.window.x1) × (x < result → y < self.now.window.y1) }
        ensures unmasked { x < result → AreColumnsOpen self.now y x result }
    {
        if y == self.window.y1 || !self.is_column_open(x, y) {
            return x;
        }
        let mut end = x;
        while end < self.window.x1 {
            if !self.is_column_open(end + 1, y) {
                return end;
            }
            end += 1;
        }
        end
    }

    /// Whether the surface departs at neither edge of a pixel. Both are the tile's, and their ends are open.
    fn follows_at<H: Heights>(&self, heights: &H, x: u32, y: u32) -> bool
        requires within { IsWithin self.now.window x y }
        requires inside { (x < self.now.window.x1) × (y < self.now.window.y1) }
        requires known { KnowsTile self.now (H.knows heights.now) }
        requires unmasked { AreEndsOpen self.now x y }
        ensures { IsTrue result → cost_at self.now (H.cycles_at heights.now) x y ≡ pos 0 }
    {
        let right = self.sheet.departure(heights, Edge { x, y, down: false });
        let lower = self.sheet.departure(heights, Edge { x, y, down: true });
        right == 0 && lower == 0
    }

    /// What the edges add to the tile's cost that start at a pixel. Both are the tile's, and their ends are open. Most surfaces
    /// depart at few edges, and no weight is looked up at the others.
    fn open_cost_from<H: Heights>(&self, heights: &H, x: u32, y: u32) -> u128
        requires within { IsWithin self.now.window x y }
        requires inside { (x < self.now.window.x1) × (y < self.now.window.y1) }
        requires known { KnowsTile self.now (H.knows heights.now) }
        requires unmasked { AreEndsOpen self.now x y }
        ensures value { pos result ≡ cost_at self.now (H.cycles_at heights.now) x y }
        ensures small { result ≤ 2 * MAX_CYCLE_COST * MAX_DEPARTURE }
    {
        if self.follows_at(heights, x, y) {
            return 0;
        }
        self.cost_from(heights, x, y, true)
    }

    /// What the edges add to the tile's cost that start in row `y` before column `end`, if those before column `x` add
    /// `before`. The columns from `x` to `end` are open in this row and in the next one.
    fn run_cost<H: Heights>(&self, heights: &H, x: u32, end: u32, y: u32, before: u128) -> u128
        requires within { IsWithin self.now.window x y }
        requires place { (x ≤ end) × (end ≤ self.now.window.x1) × (x < end → y < self.now.window.y1) }
        requires known { KnowsTile self.now (H.knows heights.now) }
        requires unmasked { x < end → AreColumnsOpen self.now y x end }
        requires value { pos before ≡ sum_row x (cost_at self.now (H.cycles_at heights.now)) y }
        requires small { before ≤ 2 * MAX_CYCLE_COST * MAX_DEPARTURE * x }
        ensures value { pos result ≡ sum_row end (cost_at self.now (H.cycles_at heights.now)) y }
        ensures small { result ≤ 2 * MAX_CYCLE_COST * MAX_DEPARTURE * end }
    {
        let mut cost = before;
        for column in x..end {
            cost += self.open_cost_from(heights, column, y);
        }
        cost
    }

    /// What the edges that start in row `y` add to the tile's cost.
    pub(crate) fn row_cost<H: Heights>(&self, heights: &H, y: u32) -> u128
        requires row { (self.now.window.y0 ≤ y) × (y ≤ self.now.window.y1) }
        requires known { KnowsTile self.now (H.knows heights.now) }
        ensures value { pos result ≡ sum_row self.now.sheet.phase.now.width (cost_at self.now (H.cycles_at heights.now)) y }
        ensures small { result ≤ 2 * MAX_CYCLE_COST * MAX_DEPARTURE * MAX_SIDE }
    {
        let unmasked = self.are_open_from(y);
        if self.is_free(heights, y, unmasked) {
            return 0;
        }
        let window = self.window;
        let mut cost: u128 = 0;
        let mut x = window.x0;
        while x <= window.x1 {
            let end = self.open_until(x, y);
            cost = self.run_cost(heights, x, end, y, cost);
            cost += self.cost_from(heights, end, y, false);
            x = end + 1;
        }
        cost
    }

    /// The cost of the tile: the sum over its inner edges with open ends.
    pub(crate) fn cost<H: Heights>(&self, heights: &H) -> u128
        requires known { KnowsTile self.now (H.knows heights.now) }
        ensures { pos result ≡ cost_in self.now (H.cycles_at heights.now) }
    {
        let window = self.window;
        let mut cost: u128 = 0;
        for y in window.y0..window.y1 + 1 {
            cost += self.row_cost(heights, y);
        }
        cost
    }
}
