ghost use Rattle.certificates.specs.EdgeOrder.{HoldsAtAll, IsFirstBreak};
ghost use Rattle.certificates.specs.EdgeWords.{HoldsBefore, HoldsFrom, HoldsIfPart, IsBreak, IsFirstBreakFrom};
ghost use Rattle.certificates.specs.TileWords.{
  AllFit,
  AreRowsOpen,
  FitAt,
  FitDown,
  FitIn,
  FitRight,
  HasFaces,
  IsInner,
  bound_in,
  difference_at,
  faces_at,
  held_mask,
  held_raster,
  over_at,
  over_in,
  product_at,
  total_at,
};
ghost use Rattle.raster_model.specs.Certificates.{above, left};
ghost use Rattle.raster_model.specs.Order.{IsCellAt};
ghost use Rattle.raster_model.specs.Raster.{has_open_ends, masked_weight, over as over_weight};
ghost use Rattle.raster_model.specs.Sums.{down_edge, is_edge, sum_row};
ghost use Rattle.raster_model.specs.Tiles.{IsWithin};
ghost use Rattle.std.specs.Prelude.{
  ◌≡◌,
  ◌+◌,
  ◌-ℤ◌,
  ◌*◌,
  ◌<◌,
  ◌≤◌,
  ◌^◌,
  ◌↔◌,
  IfErr,
  IfNone,
  IfOk,
  IfSome,
  IsTrue,
  MatchBool,
  OnOk,
  pos,
  unsigned_abs,
};

use crate::numbers::are_zeros;
use crate::tile::Tile;
use raster_model::{Edge, MAX_CYCLE_COST, MAX_SIDE};

impl Tile<'_> {
    /// The face of the tile's cell with the upper left corner (`x`, `y`).
    fn cell_face(&self, faces: &[i64], x: u32, y: u32) -> i64
        requires count { HasFaces self.now faces.now }
        requires cell { IsCellAt self.now.window x y }
        ensures { result ≡ faces_at self.now faces.now x y }
    {
        let window = self.window;
        let across = (window.x1 - window.x0) as usize;
        faces[(y - window.y0) as usize * across + (x - window.x0) as usize]
    }

    /// The face of the tile's cell with the upper left corner (`x`, `y`), or 0 if the tile has no such cell.
    fn face(&self, faces: &[i64], x: u32, y: u32) -> i64
        requires count { HasFaces self.now faces.now }
        ensures { result ≡ faces_at self.now faces.now x y }
    {
        let window = self.window;
        if window.x0 <= x && x < window.x1 && window.y0 <= y && y < window.y1 {
            self.cell_face(faces, x, y)
        } else {
            0
        }
    }

    /// The face above the right edge that starts at (`x`, `y`), or 0 if nothing of the raster lies above it.
    fn face_above(&self, faces: &[i64], x: u32, y: u32) -> i64
        requires count { HasFaces self.now faces.now }
        ensures { result ≡ above (faces_at self.now faces.now) x y }
    {
        if y == 0 {
            0
        } else {
            self.face(faces, x, y - 1)
        }
    }

    /// The face left of the down edge that starts at (`x`, `y`), or 0 if nothing of the raster lies left of it.
    fn face_left(&self, faces: &[i64], x: u32, y: u32) -> i64
        requires count { HasFaces self.now faces.now }
        ensures { result ≡ left (faces_at self.now faces.now) x y }
    {
        if x == 0 {
            0
        } else {
            self.face(faces, x - 1, y)
        }
    }

    /// The face on one side of an edge minus the face on the other: above minus below for a right edge, right minus
    /// left for a down edge.
    fn face_difference(&self, faces: &[i64], edge: Edge) -> i128
        requires count { HasFaces self.now faces.now }
        ensures { result ≡ difference_at self.now faces.now edge }
    {
        let here = i128::from(self.face(faces, edge.x, edge.y));
        if edge.down {
            here - i128::from(self.face_left(faces, edge.x, edge.y))
        } else {
            i128::from(self.face_above(faces, edge.x, edge.y)) - here
        }
    }

    /// The weight of an edge under the mask. If `unmasked` is true, both ends are known to be open.
    fn edge_weight(&self, edge: Edge, unmasked: bool) -> u16
        requires is_edge { IsTrue (is_edge self.now.sheet.phase.now.width self.now.sheet.phase.now.height edge) }
        requires unmasked { IsTrue unmasked → IsTrue (has_open_ends (held_mask self.now) edge) }
        ensures { result ≡ masked_weight (held_raster self.now) (held_mask self.now) edge }
    {
        if unmasked {
            self.sheet.stored_weight(edge)
        } else {
            self.sheet.weight(self.mask, edge)
        }
    }

    /// Whether the faces on the two sides of an edge differ by no more than the steepness times its weight. If `unmasked`
    /// is true, both ends are known to be open.
    fn faces_fit(&self, faces: &[i64], edge: Edge, unmasked: bool) -> bool
        requires count { HasFaces self.now faces.now }
        requires is_edge { IsTrue (is_edge self.now.sheet.phase.now.width self.now.sheet.phase.now.height edge) }
        requires unmasked { IsTrue unmasked → IsTrue (has_open_ends (held_mask self.now) edge) }
        ensures { IsTrue result ↔ FitAt self.now faces.now edge }
    {
        let difference = self.face_difference(faces, edge);
        difference == 0
            || difference.unsigned_abs()
                <= u128::from(self.sheet.terms.limit(self.edge_weight(edge, unmasked)))
    }

    /// Whether an edge that starts in the tile is an inner edge whose faces do not fit. If `unmasked` is true, the
    /// tile's pixels in the row where it starts and in the next row are known to be open.
    fn is_unfit(&self, faces: &[i64], edge: Edge, unmasked: bool) -> bool
        requires count { HasFaces self.now faces.now }
        requires start { IsWithin self.now.window edge.x edge.y }
        requires unmasked { IsTrue unmasked → AreRowsOpen self.now edge.y }
        ensures { MatchBool result (IsBreak (IsInner self.now) (FitAt self.now faces.now) edge) (HoldsIfPart (IsInner self.now) (FitAt self.now faces.now) edge) }
    {
        edge.end_x() <= self.window.x1
            && edge.end_y() <= self.window.y1
            && !self.faces_fit(faces, edge, unmasked)
    }

    /// The first edge that starts at a pixel and is an inner edge whose faces do not fit. `unmasked` is as in
    /// `is_unfit`.
    pub(crate) fn first_unfit_from(
        &self,
        faces: &[i64],
        x: u32,
        y: u32,
        unmasked: bool,
    ) -> Option<Edge>
        requires count { HasFaces self.now faces.now }
        requires within { IsWithin self.now.window x y }
        requires unmasked { IsTrue unmasked → AreRowsOpen self.now y }
        ensures found { IfSome result (IsFirstBreakFrom (IsInner self.now) (FitAt self.now faces.now) x y) }
        ensures none { IfNone result (HoldsFrom (IsInner self.now) (FitAt self.now faces.now) x y) }
    {
        let right = Edge { x, y, down: false };
        let down = Edge { x, y, down: true };
        if self.is_unfit(faces, right, unmasked) {
            Some(right)
        } else if self.is_unfit(faces, down, unmasked) {
            Some(down)
        } else {
            None
        }
    }

    /// Whether two faces differ by no more than may those on the two sides of an edge. If `unmasked` is true, both ends are
    /// known to be open. Most faces are like their neighbours, and no weight is looked up between these.
    fn are_near(&self, a: i64, b: i64, edge: Edge, unmasked: bool) -> bool
        requires is_edge { IsTrue (is_edge self.now.sheet.phase.now.width self.now.sheet.phase.now.height edge) }
        requires unmasked { IsTrue unmasked → IsTrue (has_open_ends (held_mask self.now) edge) }
        ensures { IsTrue result → unsigned_abs (a -ℤ b) ≤ self.now.sheet.terms.steep * masked_weight (held_raster self.now) (held_mask self.now) edge }
    {
        a == b
            || a.abs_diff(b) <= u64::from(self.sheet.terms.limit(self.edge_weight(edge, unmasked)))
    }

    /// Whether the faces fit at each right edge of row `y`. The tile has cells above and below the row. If `unmasked` is
    /// true, the row's pixels are known to be open.
    fn fit_right(&self, faces: &[i64], y: u32, unmasked: bool) -> bool
        requires count { HasFaces self.now faces.now }
        requires row { (self.now.window.y0 < y) × (y < self.now.window.y1) }
        requires unmasked { IsTrue unmasked → AreRowsOpen self.now y }
        ensures { IsTrue result → FitRight self.now faces.now y self.now.window.x1 }
    {
        let mut unfit = false;
        for x in self.window.x0..self.window.x1 {
            let above = self.cell_face(faces, x, y - 1);
            let below = self.cell_face(faces, x, y);
            let edge = Edge { x, y, down: false };
            unfit |= !self.are_near(above, below, edge, unmasked);
        }
        !unfit
    }

    /// Whether the faces fit at each down edge of row `y` that has cells of the tile on both sides. The row is not the
    /// tile's last. If `unmasked` is true, its pixels and those of the next row are known to be open.
    fn fit_down(&self, faces: &[i64], y: u32, unmasked: bool) -> bool
        requires count { HasFaces self.now faces.now }
        requires row { (self.now.window.y0 ≤ y) × (y < self.now.window.y1) }
        requires unmasked { IsTrue unmasked → AreRowsOpen self.now y }
        ensures { IsTrue result → FitDown self.now faces.now y self.now.window.x1 }
    {
        let mut unfit = false;
        for x in self.window.x0 + 1..self.window.x1 {
            let left = self.cell_face(faces, x - 1, y);
            let right = self.cell_face(faces, x, y);
            let edge = Edge { x, y, down: true };
            unfit |= !self.are_near(right, left, edge, unmasked);
        }
        !unfit
    }

    /// Whether the faces fit at the down edges of row `y` that start in the tile's first and last column. The row is not
    /// the tile's last. If `unmasked` is true, its pixels and those of the next row are known to be open.
    fn fit_at_sides(&self, faces: &[i64], y: u32, unmasked: bool) -> bool
        requires count { HasFaces self.now faces.now }
        requires row { (self.now.window.y0 ≤ y) × (y < self.now.window.y1) }
        requires unmasked { IsTrue unmasked → AreRowsOpen self.now y }
        ensures { IsTrue result → FitAt self.now faces.now (down_edge self.now.window.x0 y) × FitAt self.now faces.now (down_edge self.now.window.x1 y) }
    {
        let first = Edge {
            x: self.window.x0,
            y,
            down: true,
        };
        let last = Edge {
            x: self.window.x1,
            y,
            down: true,
        };
        self.faces_fit(faces, first, unmasked) && self.faces_fit(faces, last, unmasked)
    }

    /// Whether the faces are known to fit at each inner edge that starts in row `y`: the tile has cells above and below
    /// the row, and no edge was found at which they do not fit. If `unmasked` is true, the pixels of this row and of the
    /// next are known to be open.
    pub(crate) fn fit_in_row(&self, faces: &[i64], y: u32, unmasked: bool) -> bool
        requires count { HasFaces self.now faces.now }
        requires row { (self.now.window.y0 ≤ y) × (y ≤ self.now.window.y1) }
        requires unmasked { IsTrue unmasked → AreRowsOpen self.now y }
        ensures { IsTrue result → FitIn self.now faces.now y }
    {
        let window = self.window;
        if y == window.y0 || y == window.y1 {
            return false;
        }
        if !self.fit_right(faces, y, unmasked) || !self.fit_down(faces, y, unmasked) {
            return false;
        }
        self.fit_at_sides(faces, y, unmasked)
    }

    /// The first inner edge that starts in row `y` and whose faces do not fit. The edges of the rows before fit, so it
    /// is the first of the tile.
    fn first_unfit_in(&self, faces: &[i64], y: u32) -> Option<Edge>
        requires count { HasFaces self.now faces.now }
        requires row { (self.now.window.y0 ≤ y) × (y ≤ self.now.window.y1) }
        requires before { HoldsBefore (IsInner self.now) (FitAt self.now faces.now) self.now.window.x0 y }
        ensures found { IfSome result (IsFirstBreak (IsInner self.now) (FitAt self.now faces.now)) }
        ensures none { IfNone result (HoldsBefore (IsInner self.now) (FitAt self.now faces.now) self.now.window.x0 (y + 1)) }
    {
        let window = self.window;
        let unmasked = self.are_open_from(y);
        if self.fit_in_row(faces, y, unmasked) {
            return None;
        }
        for x in window.x0..window.x1 + 1 {
            if let Some(edge) = self.first_unfit_from(faces, x, y, unmasked) {
                return Some(edge);
            }
        }
        None
    }

    /// The first inner edge whose faces do not fit.
    fn first_unfit(&self, faces: &[i64]) -> Option<Edge>
        requires count { HasFaces self.now faces.now }
        ensures found { IfSome result (IsFirstBreak (IsInner self.now) (FitAt self.now faces.now)) }
        ensures none { IfNone result (HoldsAtAll (IsInner self.now) (FitAt self.now faces.now)) }
    {
        let window = self.window;
        for y in window.y0..window.y1 + 1 {
            if let Some(edge) = self.first_unfit_in(faces, y) {
                return Some(edge);
            }
        }
        None
    }

    /// A cell's face times its residue.
    pub(crate) fn face_product(&self, faces: &[i64], x: u32, y: u32) -> i128
        requires count { HasFaces self.now faces.now }
        requires cell { IsCellAt self.now.window x y }
        ensures value { result ≡ product_at self.now faces.now x y }
        ensures small { unsigned_abs result ≤ 2 ^ 63 }
    {
        let face = self.cell_face(faces, x, y);
        if face == 0 {
            return 0;
        }
        i128::from(face) * i128::from(self.sheet.residue(x, y))
    }

    /// The sum of face times residue over the tile's cells.
    fn face_total(&self, faces: &[i64]) -> i128
        requires count { HasFaces self.now faces.now }
        ensures value { result ≡ total_at self.now faces.now }
        ensures small { unsigned_abs result ≤ 2 ^ 63 * (MAX_SIDE * MAX_SIDE) }
    {
        let window = self.window;
        let mut total: i128 = 0;
        for y in window.y0..window.y1 {
            for x in window.x0..window.x1 {
                total += self.face_product(faces, x, y);
            }
        }
        total
    }

    /// By how much the faces on the two sides of an edge differ by more than its weight.
    fn over(&self, faces: &[i64], edge: Edge) -> u64
        requires count { HasFaces self.now faces.now }
        requires is_edge { IsTrue (is_edge self.now.sheet.phase.now.width self.now.sheet.phase.now.height edge) }
        requires fit { FitAt self.now faces.now edge }
        ensures value { result ≡ over_weight (masked_weight (held_raster self.now) (held_mask self.now) edge) (difference_at self.now faces.now edge) }
        ensures small { result ≤ MAX_CYCLE_COST }
    {
        let weight = self.sheet.weight(self.mask, edge);
        let difference = self.face_difference(faces, edge).unsigned_abs() as u64;
        difference.saturating_sub(u64::from(weight))
    }

    /// By how much faces differ by more than the weights at the inner edges that start at a pixel.
    fn over_from(&self, faces: &[i64], x: u32, y: u32) -> u64
        requires count { HasFaces self.now faces.now }
        requires within { IsWithin self.now.window x y }
        requires fit { FitIn self.now faces.now y }
        ensures value { pos result ≡ over_at self.now faces.now x y }
        ensures small { result ≤ 2 * MAX_CYCLE_COST }
    {
        let to_right = if x < self.window.x1 {
            self.over(faces, Edge { x, y, down: false })
        } else {
            0
        };
        let to_lower = if y < self.window.y1 {
            self.over(faces, Edge { x, y, down: true })
        } else {
            0
        };
        to_right + to_lower
    }

    /// By how much faces differ by more than the weights at the inner edges that start in row `y`.
    pub(crate) fn row_over(&self, faces: &[i64], y: u32) -> u64
        requires count { HasFaces self.now faces.now }
        requires row { (self.now.window.y0 ≤ y) × (y ≤ self.now.window.y1) }
        requires fit { FitIn self.now faces.now y }
        ensures value { pos result ≡ sum_row self.now.sheet.phase.now.width (over_at self.now faces.now) y }
        ensures small { result ≤ 2 * MAX_CYCLE_COST * MAX_SIDE }
    {
        let window = self.window;
        let mut over: u64 = 0;
        for x in window.x0..window.x1 + 1 {
            over += self.over_from(faces, x, y);
        }
        over
    }

    /// By how much faces that fit differ by more than the weights, over the tile's inner edges. At the steepness 1 no edge
    /// is looked at.
    fn total_over(&self, faces: &[i64]) -> u64
        requires count { HasFaces self.now faces.now }
        requires fit { AllFit self.now faces.now }
        ensures value { pos result ≡ over_in self.now faces.now }
        ensures small { result ≤ 2 * MAX_CYCLE_COST * (MAX_SIDE * MAX_SIDE) }
    {
        if self.sheet.terms.steep == 1 {
            return 0;
        }
        let window = self.window;
        let mut over: u64 = 0;
        for y in window.y0..window.y1 + 1 {
            over += self.row_over(faces, y);
        }
        over
    }

    /// The bound of faces that fit: the sum of face times residue over the tile's cells, minus that by which faces differ by
    /// more than the weights.
    fn face_bound(&self, faces: &[i64]) -> i128
        requires count { HasFaces self.now faces.now }
        requires fit { AllFit self.now faces.now }
        ensures { result ≡ bound_in self.now faces.now }
    {
        self.face_total(faces) - i128::from(self.total_over(faces))
    }

    /// The bound of the faces if they fit at each inner edge, and otherwise the first edge at which they do not. Faces that
    /// are all 0 fit everywhere, and their bound is 0.
    pub(crate) fn bound(&self, faces: &[i64]) -> Result<i128, Edge>
        requires count { HasFaces self.now faces.now }
        ensures total { IfOk result (λ bound. bound ≡ bound_in self.now faces.now) }
        ensures fit { OnOk result (HoldsAtAll (IsInner self.now) (FitAt self.now faces.now)) }
        ensures unfit { IfErr result (IsFirstBreak (IsInner self.now) (FitAt self.now faces.now)) }
    {
        if are_zeros(faces) {
            return Ok(0);
        }
        match self.first_unfit(faces) {
            Some(edge) => Err(edge),
            None => Ok(self.face_bound(faces)),
        }
    }
}
