ghost use Rattle.raster_model.specs.Scene.{raster_of};
ghost use Rattle.raster_model.specs.Sheets.{sheet_raster};
ghost use Rattle.raster_model.specs.Tiles.{tiles_of};
ghost use Rattle.raster_model.specs.Whole.{whole_of};
ghost use Rattle.std.specs.Prelude.{◌≡◌, IfNone, IfOk, IfSome, vec_len};

use certificates::{SeamVerdict, TileVerdict, check_faces, check_flows};
use grid_writer::ShownValues;
use raster_model::{Mask, Scene, Sheet};
use report_text::ReportSurface;
use seam_regions::Regions;
use std::alloc::{AllocError, Global};

/// A surface as a report gives it, over a scene and a mask.
#[derive(Clone, Copy)]
pub(crate) struct ShownSurface<'a> {
    pub(crate) scene: &'a Scene,
    /// The scene without its tiles.
    pub(crate) sheet: &'a Sheet<'a>,
    pub(crate) mask: &'a Mask,
    pub(crate) told: &'a ReportSurface,
    pub(crate) ghost raster: { sheet_raster sheet.now ≡ whole_of (raster_of scene.now) },
    pub(crate) ghost mask_size: { (mask.now.width ≡ scene.now.phase.width) × (mask.now.height ≡ scene.now.phase.height) },
    pub(crate) ghost grid_size: { (told.now.grid.width ≡ scene.now.phase.width) × (told.now.grid.height ≡ scene.now.phase.height) },
    pub(crate) ghost one_each: { vec_len told.now.faces ≡ tiles_of scene.now.tiling },
}

impl ShownSurface<'_> {
    ghost use Rattle.grid_writer.specs.Fits.{AllValuesFit, IsFirstUnfitValue};
    ghost use Rattle.report_check.specs.Shown.{IsShownFlowsVerdict, open_shown, raster_shown, told_shown};
    ghost use Rattle.report_check.specs.Verdicts.{IsFirstUnfitTile, TilesAreCertified};

    /// Its values.
    pub(crate) fn values(&self) -> ShownValues<'_>
        ensures sheet { result.sheet.now ≡ self.now.sheet.now }
        ensures mask { result.mask.now ≡ self.now.mask.now }
        ensures values { result.values.now ≡ self.now.told.now.grid.values.items }
    {
        ShownValues {
            sheet: self.sheet,
            mask: self.mask,
            values: &self.told.grid.values,
        }
    }

    /// The first pixel in row order whose value is not NODATA though it is masked, or is NODATA or not the phase up to
    /// whole cycles though it is open.
    pub(crate) fn first_unfit_value(&self) -> Option<(u32, u32)>
        ensures found { IfSome result (λ pixel. IsFirstUnfitValue (raster_shown self.now) (open_shown self.now) (told_shown self.now).values pixel.0 pixel.1) }
        ensures none { IfNone result (AllValuesFit (raster_shown self.now) (open_shown self.now) (told_shown self.now).values) }
    {
        self.values().first_unfit()
    }

    /// The first tile that its faces do not certify, and what the check says of it.
    pub(crate) fn first_unfit_tile(&self) -> Option<(u32, TileVerdict)>
        ensures found { IfSome result (λ tile. IsFirstUnfitTile (raster_shown self.now) (open_shown self.now) (told_shown self.now) tile.0 tile.1) }
        ensures none { IfNone result (TilesAreCertified (raster_shown self.now) (open_shown self.now) (told_shown self.now) (tiles_of self.now.scene.now.tiling)) }
    {
        let values = self.values();
        for tile in 0..self.scene.tiling.tile_count() {
            let faces = &self.told.faces[tile as usize];
            match check_faces(self.scene, self.mask, tile, &values, faces) {
                TileVerdict::Good => {}
                verdict => return Some((tile, verdict)),
            }
        }
        None
    }

    /// What the check of the flows says.
    pub(crate) fn seams(&self, alloc: Global) -> Result<SeamVerdict, AllocError>
        ensures { IfOk result (IsShownFlowsVerdict (raster_shown self.now) (open_shown self.now) (told_shown self.now)) }
    {
        let regions = Regions::of(alloc, &self.scene.tiling, self.mask)?;
        let mut scratch = vec![in alloc; 0; regions.count() as usize]?;
        Ok(check_flows(
            self.scene,
            self.mask,
            regions.labels(),
            &self.values(),
            &self.told.flows,
            &mut scratch,
        ))
    }
}
