ghost use Rattle.certain_parts.specs.Faces.{faced_by};
ghost use Rattle.certain_parts.specs.Margins.{margin};
ghost use Rattle.certain_parts.specs.Parts.{parts_joined};
ghost use Rattle.joined_cells.specs.Joining.{joins};
ghost use Rattle.raster_model.specs.Cells.{IsCertifiedTile};
ghost use Rattle.raster_model.specs.Limits.{is_raster_size};
ghost use Rattle.raster_model.specs.Masks.{open_at};
ghost use Rattle.raster_model.specs.Raster.{has_open_ends, lifted};
ghost use Rattle.raster_model.specs.Sheets.{sheet_raster};
ghost use Rattle.raster_model.specs.Sums.{at_edge_end, is_edge};
ghost use Rattle.raster_model.specs.Whole.{whole_of};
ghost use Rattle.std.specs.Prelude.{◌≡◌, ◌<◌, IsTrue};

use crate::faces::Faces;
use crate::margin::margin_of;
use joined_cells::EdgeTest;
use raster_model::{Edge, Heights, Mask, Sheet};

/// A surface over a whole raster that faces certify; they tell the margins, so it is not read. An edge with open ends joins
/// them if its margin is above the limit.
#[derive(Drop)]
pub(crate) struct CertainEdges<'a, H: Heights> {
    pub(crate) sheet: &'a Sheet<'a>,
    pub(crate) mask: &'a Mask,
    pub(crate) heights: &'a H,
    pub(crate) faces: &'a [i64],
    pub(crate) limit: u32,
    pub(crate) ghost same_size: { (mask.now.width ≡ sheet.now.phase.now.width) × (mask.now.height ≡ sheet.now.phase.now.height) },
    pub(crate) ghost certified: { IsCertifiedTile (whole_of (sheet_raster sheet.now)) (open_at mask.now) 0 (lifted (sheet_raster sheet.now) (H.cycles_at heights.now)) faces.now },
}

impl<H: Heights> CertainEdges<'_, H> {
    /// The margin of an edge with open ends.
    fn margin(&self, edge: Edge) -> i64
        requires is_edge { IsTrue (is_edge self.now.sheet.now.phase.now.width self.now.sheet.now.phase.now.height edge) }
        requires unmasked { IsTrue (has_open_ends (open_at self.now.mask.now) edge) }
        ensures { result ≡ margin (faced_by (sheet_raster self.now.sheet.now) (open_at self.now.mask.now) (H.cycles_at self.now.heights.now) self.now.faces.now) edge }
    {
        let faces = Faces {
            sheet: self.sheet,
            faces: self.faces,
        };
        let weight = self.sheet.stored_weight(edge);
        margin_of(self.sheet.terms.steep, weight, faces.step(edge))
    }
}

impl<H: Heights> EdgeTest for CertainEdges<'_, H> {
    ghost joining = { λ s. parts_joined (faced_by (sheet_raster s.sheet.now) (open_at s.mask.now) (H.cycles_at s.heights.now) s.faces.now) s.limit };

    fn width(&self) -> u32
        ensures width { result ≡ self.now.sheet.now.phase.now.width }
        ensures sized { IsTrue (is_raster_size self.now.sheet.now.phase.now.width self.now.sheet.now.phase.now.height) }
    {
        self.mask.width()
    }

    fn height(&self) -> u32
        ensures { result ≡ self.now.sheet.now.phase.now.height }
    {
        self.mask.height()
    }

    fn is_open(&self, x: u32, y: u32) -> bool
        requires across { x < self.now.sheet.now.phase.now.width }
        requires along { y < self.now.sheet.now.phase.now.height }
        ensures { result ≡ open_at self.now.mask.now x y }
    {
        self.mask.is_open(x, y)
    }

    fn joins(&self, edge: Edge) -> bool
        requires is_edge { IsTrue (is_edge self.now.sheet.now.phase.now.width self.now.sheet.now.phase.now.height edge) }
        requires end { IsTrue (at_edge_end (open_at self.now.mask.now) edge) }
        ensures { result ≡ joins (parts_joined (faced_by (sheet_raster self.now.sheet.now) (open_at self.now.mask.now) (H.cycles_at self.now.heights.now) self.now.faces.now) self.now.limit) edge }
    {
        self.mask.is_open(edge.x, edge.y) && self.margin(edge) > i64::from(self.limit)
    }
}
