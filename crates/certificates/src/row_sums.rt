ghost use Rattle.certificates.specs.RowWords.{AreSums};
ghost use Rattle.certificates.specs.TileWords.{FitIn, HasFaces, KnowsTile, over_at, product_at};
ghost use Rattle.raster_model.specs.Sums.{sum_row};
ghost use Rattle.std.specs.Prelude.{◌≡◌, ◌+◌, ◌+ℤ◌, ◌-ℤ◌, ◌*◌, ◌≤◌, ◌^◌, IfSome, IsTrue, pos, unsigned_abs};

use crate::tile::Tile;
use raster_model::{Heights, MAX_CYCLE_COST, MAX_SIDE};

/// What the rows of a tile add up to, if the faces fit at each inner edge that starts in them.
#[derive(Clone, Copy)]
pub(crate) struct Sums {
    /// What they add to the bound of the faces.
    pub(crate) bound: i128,
    /// What they add to the cost of the surface.
    pub(crate) cost: u128,
}

/// The sums of no row.
pub(crate) const NO_SUMS: Sums = Sums { bound: 0, cost: 0 };

impl Sums {
    /// The sums of these rows and of others.
    pub(crate) fn plus(self, more: Sums) -> Sums
        requires bounds { (unsigned_abs self.bound ≤ 2 ^ 100) × (unsigned_abs more.bound ≤ 2 ^ 100) }
        requires costs { (self.cost ≤ 2 ^ 120) × (more.cost ≤ 2 ^ 120) }
        ensures bound { result.bound ≡ self.bound +ℤ more.bound }
        ensures cost { result.cost ≡ self.cost + more.cost }
    {
        Sums {
            bound: self.bound + more.bound,
            cost: self.cost + more.cost,
        }
    }
}

impl Tile<'_> {
    /// Whether the faces fit at each inner edge that starts in row `y`.
    fn fit_from(&self, faces: &[i64], y: u32) -> bool
        requires count { HasFaces self.now faces.now }
        requires row { (self.now.window.y0 ≤ y) × (y ≤ self.now.window.y1) }
        ensures { IsTrue result → FitIn self.now faces.now y }
    {
        let unmasked = self.are_open_from(y);
        if self.fit_in_row(faces, y, unmasked) {
            return true;
        }
        for x in self.window.x0..self.window.x1 + 1 {
            if let Some(_edge) = self.first_unfit_from(faces, x, y, unmasked) {
                return false;
            }
        }
        true
    }

    /// The sum of face times residue over the tile's cells in row `y`.
    fn row_total(&self, faces: &[i64], y: u32) -> i128
        requires count { HasFaces self.now faces.now }
        requires row { (self.now.window.y0 ≤ y) × (y ≤ self.now.window.y1) }
        ensures value { result ≡ sum_row self.now.sheet.phase.now.width (product_at self.now faces.now) y }
        ensures small { unsigned_abs result ≤ 2 ^ 63 * MAX_SIDE }
    {
        if y == self.window.y1 {
            return 0;
        }
        let mut total: i128 = 0;
        for x in self.window.x0..self.window.x1 {
            total += self.face_product(faces, x, y);
        }
        total
    }

    /// By how much faces that fit differ by more than the weights at the inner edges that start in row `y`. At the steepness 1
    /// no edge is looked at.
    fn row_excess(&self, faces: &[i64], y: u32) -> u64
        requires count { HasFaces self.now faces.now }
        requires row { (self.now.window.y0 ≤ y) × (y ≤ self.now.window.y1) }
        requires fit { FitIn self.now faces.now y }
        ensures value { pos result ≡ sum_row self.now.sheet.phase.now.width (over_at self.now faces.now) y }
        ensures small { result ≤ 2 * MAX_CYCLE_COST * MAX_SIDE }
    {
        if self.sheet.terms.steep == 1 {
            return 0;
        }
        self.row_over(faces, y)
    }

    /// What row `y` adds to the bound of faces that fit.
    fn row_bound(&self, faces: &[i64], y: u32) -> i128
        requires count { HasFaces self.now faces.now }
        requires row { (self.now.window.y0 ≤ y) × (y ≤ self.now.window.y1) }
        requires fit { FitIn self.now faces.now y }
        ensures value { result ≡ sum_row self.now.sheet.phase.now.width (product_at self.now faces.now) y -ℤ sum_row self.now.sheet.phase.now.width (over_at self.now faces.now) y }
        ensures small { unsigned_abs result ≤ 2 ^ 80 }
    {
        self.row_total(faces, y) - i128::from(self.row_excess(faces, y))
    }

    /// The sums of row `y`, if the faces fit at each inner edge that starts in it.
    fn row_sums<H: Heights>(&self, heights: &H, faces: &[i64], y: u32) -> Option<Sums>
        requires count { HasFaces self.now faces.now }
        requires row { (self.now.window.y0 ≤ y) × (y ≤ self.now.window.y1) }
        requires known { KnowsTile self.now (H.knows heights.now) }
        ensures { IfSome result (AreSums self.now (H.cycles_at heights.now) faces.now y (y + 1)) }
    {
        if !self.fit_from(faces, y) {
            return None;
        }
        let bound = self.row_bound(faces, y);
        let cost = self.row_cost(heights, y);
        Some(Sums { bound, cost })
    }

    /// The sums of the rows from `first` to before `end`, if the faces fit at each inner edge that starts in them.
    pub(crate) fn sums_of_rows<H: Heights>(
        &self,
        heights: &H,
        faces: &[i64],
        first: u32,
        end: u32,
    ) -> Option<Sums>
        requires count { HasFaces self.now faces.now }
        requires rows { (self.now.window.y0 ≤ first) × (first ≤ end) × (end ≤ self.now.window.y1 + 1) }
        requires known { KnowsTile self.now (H.knows heights.now) }
        ensures { IfSome result (AreSums self.now (H.cycles_at heights.now) faces.now first end) }
    {
        let mut sums = NO_SUMS;
        for y in first..end {
            let Some(more) = self.row_sums(heights, faces, y) else {
                return None;
            };
            sums = sums.plus(more);
        }
        Some(sums)
    }
}
