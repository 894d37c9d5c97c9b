ghost use Rattle.certificates.specs.Results.{HasShape, IsGoodTile, result_surface};
ghost use Rattle.certificates.specs.Verdicts.{IsFacesVerdict, IsTileVerdict};
ghost use Rattle.certificates.specs.declared.verdicts.TileVerdict.TheVariants.{Good};
ghost use Rattle.raster_model.specs.Cells.{IsCertifiedTile};
ghost use Rattle.raster_model.specs.Certificates.{IsLeastInTile};
ghost use Rattle.raster_model.specs.Heights.{KnowsOpen, KnowsOpenOf};
ghost use Rattle.raster_model.specs.Masks.{open_at};
ghost use Rattle.raster_model.specs.Raster.{lifted};
ghost use Rattle.raster_model.specs.Scene.{raster_of};
ghost use Rattle.raster_model.specs.Sheets.{sheet_raster};
ghost use Rattle.raster_model.specs.Tiles.{tiles_of};
ghost use Rattle.raster_model.specs.Whole.{IsCertifiedWhole, IsLeastOfAll, whole_cost};
ghost use Rattle.std.specs.Prelude.{◌≡◌, ◌≢◌, ◌<◌, ◌↔◌, IfErr, IfOk, IsOk, IsTrue, pos};

use crate::cut::Cut;
use crate::cycles::TileCycles;
use crate::results::TileResult;
use crate::tile::Tile;
use crate::verdicts::TileVerdict;
use raster_model::{Heights, Mask, Scene, Sheet, Window};

/// Checks the faces that certify a surface in a tile: one for each of its cells, in row order. It judges first their
/// number, then their differences at the inner edges in edge order, then the cost. It takes no memory and visits each
/// pixel of the tile's window a few times. (Costantini 1998.)
pub fn check_faces<H: Heights>(
    scene: &Scene,
    mask: &Mask,
    tile: u32,
    heights: &H,
    faces: &[i64],
) -> TileVerdict
    requires same_size { (mask.now.width ≡ scene.now.phase.width) × (mask.now.height ≡ scene.now.phase.height) }
    requires exists { tile < tiles_of scene.now.tiling }
    requires known { KnowsOpenOf (raster_of scene.now) (open_at mask.now) tile (H.knows heights.now) }
    ensures verdict { IsFacesVerdict (raster_of scene.now) (open_at mask.now) tile (lifted (raster_of scene.now) (H.cycles_at heights.now)) faces.now result }
    ensures good { (result ≡ Good) ↔ IsCertifiedTile (raster_of scene.now) (open_at mask.now) tile (lifted (raster_of scene.now) (H.cycles_at heights.now)) faces.now }
    ensures least { result ≡ Good → IsLeastInTile (raster_of scene.now) (open_at mask.now) tile (lifted (raster_of scene.now) (H.cycles_at heights.now)) }
{
    let window = scene.tiling.window(tile);
    let tile = Tile {
        sheet: scene.sheet(),
        mask,
        cut: Cut::Tiles(scene.tiling),
        number: tile,
        window,
    };
    match tile.check(heights, faces) {
        Ok(_) => TileVerdict::Good,
        Err(verdict) => verdict,
    }
}

/// Checks the faces that certify a surface over the whole raster, as one tile: one for each cell of the raster, in row
/// order. It judges first their number, then their differences at the edges in edge order, then the cost. If they certify
/// it, the answer is what the surface costs over all edges, and no congruent surface costs less; otherwise it is the first
/// break. It takes no memory and visits each pixel a few times. (Costantini 1998.)
pub fn check_whole<H: Heights>(
    sheet: &Sheet,
    mask: &Mask,
    heights: &H,
    faces: &[i64],
) -> Result<u128, TileVerdict>
    requires same_size { (mask.now.width ≡ sheet.now.phase.now.width) × (mask.now.height ≡ sheet.now.phase.now.height) }
    requires known { KnowsOpen (sheet_raster sheet.now) (open_at mask.now) (H.knows heights.now) }
    ensures certified { IfOk result (λ cost. IsCertifiedWhole (sheet_raster sheet.now) (open_at mask.now) (lifted (sheet_raster sheet.now) (H.cycles_at heights.now)) faces.now × (pos cost ≡ whole_cost (sheet_raster sheet.now) (open_at mask.now) (lifted (sheet_raster sheet.now) (H.cycles_at heights.now)))) }
    ensures least { IfOk result (λ cost. IsLeastOfAll (sheet_raster sheet.now) (open_at mask.now) (lifted (sheet_raster sheet.now) (H.cycles_at heights.now))) }
    ensures refused { IfErr result (λ verdict. IsFacesVerdict (sheet_raster sheet.now) (open_at mask.now) 0 (lifted (sheet_raster sheet.now) (H.cycles_at heights.now)) faces.now verdict × (verdict ≢ Good)) }
    ensures good { IsOk result ↔ IsCertifiedTile (sheet_raster sheet.now) (open_at mask.now) 0 (lifted (sheet_raster sheet.now) (H.cycles_at heights.now)) faces.now }
{
    let window = Window {
        x0: 0,
        y0: 0,
        x1: sheet.phase.width - 1,
        y1: sheet.phase.height - 1,
    };
    let tile = Tile {
        sheet: *sheet,
        mask,
        cut: Cut::Whole,
        number: 0,
        window,
    };
    tile.check(heights, faces)
}

/// Checks a result for a tile that exists. It judges first the shape, then the range of the cycles at the open pixels
/// in row order, then the faces as `check_faces` does, for the surface of the cycles. It takes no memory.
pub fn check_tile(scene: &Scene, mask: &Mask, solved: &TileResult) -> TileVerdict
    requires same_size { (mask.now.width ≡ scene.now.phase.width) × (mask.now.height ≡ scene.now.phase.height) }
    requires exists { solved.now.tile < tiles_of scene.now.tiling }
    ensures verdict { IsTileVerdict scene.now (open_at mask.now) solved.now result }
    ensures good { (result ≡ Good) ↔ IsGoodTile scene.now (open_at mask.now) solved.now }
    ensures least { result ≡ Good → IsLeastInTile (raster_of scene.now) (open_at mask.now) solved.now.tile (result_surface scene.now solved.now) }
{
    if !has_shape(scene, solved) {
        return TileVerdict::Shape;
    }
    let window = scene.tiling.window(solved.tile);
    let heights = TileCycles {
        window,
        cycles: &solved.cycles,
    };
    if let Some((x, y)) = heights.first_outside(mask) {
        return TileVerdict::Range { x, y };
    }
    check_faces(scene, mask, solved.tile, &heights, &solved.faces)
}

/// Whether a result has as many cycles as its tile has pixels, and as many faces as cells.
fn has_shape(scene: &Scene, solved: &TileResult) -> bool
    requires { solved.now.tile < tiles_of scene.now.tiling }
    ensures { IsTrue result ↔ HasShape scene.now solved.now }
{
    let window = scene.tiling.window(solved.tile);
    let across = (window.x1 - window.x0) as usize;
    let along = (window.y1 - window.y0) as usize;
    solved.cycles.len() == (across + 1) * (along + 1) && solved.faces.len() == across * along
}
