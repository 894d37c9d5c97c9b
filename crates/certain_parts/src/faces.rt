ghost use Rattle.certain_parts.specs.Faces.{face_over};
ghost use Rattle.certain_parts.specs.MarginWords.{HasFaces};
ghost use Rattle.raster_model.specs.Certificates.{above, face_difference, left};
ghost use Rattle.raster_model.specs.Sheets.{sheet_raster};
ghost use Rattle.std.specs.Prelude.{◌≡◌, ◌≤◌, unsigned_abs};

use raster_model::{Edge, MAX_CYCLE_COST, Sheet};

/// Faces of the cells of a whole raster, in row order.
#[derive(Clone, Copy)]
pub(crate) struct Faces<'a> {
    pub(crate) sheet: &'a Sheet<'a>,
    pub(crate) faces: &'a [i64],
    pub(crate) ghost count: { HasFaces (sheet_raster sheet.now) faces.now },
}

impl Faces<'_> {
    /// The face of the cell with the upper left corner (`x`, `y`), or 0 if the raster has no such cell.
    fn face(&self, x: u32, y: u32) -> i64
        ensures { result ≡ face_over (sheet_raster self.now.sheet.now) self.now.faces.now x y }
    {
        let across = self.sheet.phase.width - 1;
        if x < across && y < self.sheet.phase.height - 1 {
            self.faces[y as usize * across as usize + x as usize]
        } else {
            0
        }
    }

    /// The face above the right edge that starts at (`x`, `y`), or 0 if nothing of the raster lies above it.
    fn face_above(&self, x: u32, y: u32) -> i64
        ensures { result ≡ above (face_over (sheet_raster self.now.sheet.now) self.now.faces.now) x y }
    {
        if y == 0 { 0 } else { self.face(x, y - 1) }
    }

    /// The face left of the down edge that starts at (`x`, `y`), or 0 if nothing of the raster lies left of it.
    fn face_left(&self, x: u32, y: u32) -> i64
        ensures { result ≡ left (face_over (sheet_raster self.now.sheet.now) self.now.faces.now) x y }
    {
        if x == 0 { 0 } else { self.face(x - 1, y) }
    }

    /// The face on one side of an edge minus the face on the other: above minus below for a right edge, right minus left
    /// for a down edge. The faces fit there.
    pub(crate) fn step(&self, edge: Edge) -> i64
        requires { unsigned_abs (face_difference (face_over (sheet_raster self.now.sheet.now) self.now.faces.now) edge) ≤ MAX_CYCLE_COST }
        ensures { result ≡ face_difference (face_over (sheet_raster self.now.sheet.now) self.now.faces.now) edge }
    {
        let here = self.face(edge.x, edge.y);
        if edge.down {
            here - self.face_left(edge.x, edge.y)
        } else {
            self.face_above(edge.x, edge.y) - here
        }
    }
}
