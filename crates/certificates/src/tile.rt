ghost use Rattle.certificates.specs.Cuts.{raster_cut};
ghost use Rattle.std.specs.Prelude.{◌≡◌};
ghost use Rattle.raster_model.specs.Tiles.{IsTileWindow};

use crate::cut::Cut;
use crate::numbers::is_same;
use crate::verdicts::TileVerdict;
use raster_model::{Heights, Mask, Sheet, Window};

/// A tile of a sheet's raster under a mask. Only contracts read its cut and its number.
#[derive(Clone, Copy)]
pub(crate) struct Tile<'a> {
    pub(crate) sheet: Sheet<'a>,
    pub(crate) mask: &'a Mask,
    pub(crate) cut: Cut,
    pub(crate) number: u32,
    pub(crate) window: Window,
    pub(crate) ghost same_size: { (mask.now.width ≡ sheet.phase.now.width) × (mask.now.height ≡ sheet.phase.now.height) },
    pub(crate) ghost pixels: { IsTileWindow (raster_cut sheet cut) number window },
}

impl Tile<'_> {
    ghost use Rattle.certificates.specs.TileWords.{AreCertified, AreRowsOpen, IsVerdictOn, KnowsTile, cost_in};
    ghost use Rattle.certificates.specs.declared.verdicts.TileVerdict.TheVariants.{Good};
    ghost use Rattle.std.specs.Prelude.{◌≤◌, ◌≢◌, IfErr, IfOk, IsTrue, pos};

    /// Whether the tile's pixels in row `y` and in the next row are all open.
    pub(crate) fn are_open_from(&self, y: u32) -> bool
        requires { (self.now.window.y0 ≤ y) × (y ≤ self.now.window.y1) }
        ensures { IsTrue result → AreRowsOpen self.now y }
    {
        let window = self.window;
        self.mask.is_open_span(y, window.x0, window.x1)
            && (y == window.y1 || self.mask.is_open_span(y + 1, window.x0, window.x1))
    }

    /// What the surface costs in the tile if the faces certify it there, and otherwise the first break: the number of faces,
    /// then their differences at the inner edges in edge order, then the cost.
    pub(crate) fn check<H: Heights>(&self, heights: &H, faces: &[i64]) -> Result<u128, TileVerdict>
        requires known { KnowsTile self.now (H.knows heights.now) }
        ensures certified { IfOk result (λ cost. AreCertified self.now (H.cycles_at heights.now) faces.now × (pos cost ≡ cost_in self.now (H.cycles_at heights.now))) }
        ensures refused { IfErr result (λ verdict. IsVerdictOn self.now (H.cycles_at heights.now) faces.now verdict × (verdict ≢ Good)) }
    {
        let window = self.window;
        let cells = (window.x1 - window.x0) as usize * (window.y1 - window.y0) as usize;
        if faces.len() != cells {
            return Err(TileVerdict::Shape);
        }
        let bound = match self.bound(faces) {
            Ok(bound) => bound,
            Err(edge) => return Err(TileVerdict::FaceAtEdge(edge)),
        };
        let cost = self.cost(heights);
        if is_same(bound, cost) {
            Ok(cost)
        } else {
            Err(TileVerdict::CostDiffers { cost, bound })
        }
    }
}
