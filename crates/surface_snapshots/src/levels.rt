ghost use Rattle.std.specs.Prelude.{◌≡◌, ◌*◌, IfOk};
ghost use Rattle.surface_snapshots.specs.Parts.{is_open_pixel};
ghost use Rattle.surface_snapshots.specs.Shifted.{AreListedCycles, cycles_under, open_under};

use crate::shifted::ShiftedTiles;
use certificates::{SeamVerdict, check_flows};
use raster_model::{Heights, Mask};
use seam_regions::Regions;
use std::alloc::{AllocError, Global};

/// A surface whose cycles were found once, for each pixel in row order.
#[derive(Drop)]
pub(crate) struct Levels<'a> {
    pub(crate) surface: ShiftedTiles<'a>,
    cycles: Vec<i64>,
    ghost listed: { AreListedCycles surface (surface.scene.now.phase.height * surface.scene.now.phase.width) cycles.items },
}

impl Heights for Levels<'_> {
    ghost knows = { λ s. is_open_pixel s.surface.scene.now.phase.width s.surface.scene.now.phase.height (open_under s.surface) };

    ghost cycles_at = { λ s. cycles_under s.surface };

    fn cycles(&self, x: u32, y: u32) -> i64 {
        let width = self.surface.scene.phase.width as usize;
        self.cycles[y as usize * width + x as usize]
    }
}

impl<'a> Levels<'a> {
    ghost use Rattle.certificates.specs.SeamVerdicts.{IsSeamVerdict};
    ghost use Rattle.raster_model.specs.Masks.{open_at};
    ghost use Rattle.raster_model.specs.Raster.{lifted};
    ghost use Rattle.seam_regions.specs.Regions.{AreRegionsOf, region_label};
    ghost use Rattle.surface_snapshots.specs.Shifted.{mask_under, raster_under};
    ghost use Rattle.surface_snapshots.specs.Tiled.{regions_in};

    /// The cycles of a surface at all pixels.
    pub(crate) fn of(alloc: Global, surface: ShiftedTiles<'a>) -> Result<Levels<'a>, AllocError>
        ensures { IfOk result (λ made. made.surface ≡ surface.entry) }
    {
        let phase = &surface.scene.phase;
        let pixels = phase.height as usize * phase.width as usize;
        let mut cycles = vec![in alloc; 0; pixels]?;
        surface.fill_strip(0, &mut cycles);
        Ok(Levels { surface, cycles })
    }

    /// What the check of the flows says of the surface, whose mask and regions are these.
    pub(crate) fn judge(
        &self,
        alloc: Global,
        mask: &Mask,
        regions: &Regions,
        flows: &[i64],
    ) -> Result<SeamVerdict, AllocError>
        requires told { mask.now ≡ mask_under self.now.surface }
        requires same { regions_in self.now.surface.regions.now ≡ regions.now }
        requires regions { AreRegionsOf self.now.surface.scene.now.tiling mask.now regions.now }
        ensures { IfOk result (IsSeamVerdict (raster_under self.now.surface) (open_at mask.now) (region_label regions.now) regions.now.count (cycles_under self.now.surface) flows.now) }
    {
        let surface = self.surface;
        let mut scratch = vec![in alloc; 0; regions.count() as usize]?;
        Ok(check_flows(
            surface.scene,
            mask,
            regions.labels(),
            self,
            flows,
            &mut scratch,
        ))
    }
}
