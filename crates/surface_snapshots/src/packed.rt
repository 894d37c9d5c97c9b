ghost use Rattle.std.specs.Prelude.{◌≡◌};
ghost use Rattle.surface_snapshots.specs.Tiled.{regions_in};

use crate::tiled::TiledRegions;
use raster_model::Tiling;
use seam_regions::Regions;
use std::alloc::{AllocError, Global};

/// The regions of a raster, pixel by pixel and also tile by tile, as a surface keeps them.
#[derive(Drop)]
pub struct PackedRegions {
    pub tiling: Tiling,
    pub regions: Regions,
    pub(crate) tiled: TiledRegions,
    pub(crate) ghost places: { tiled.tiling ≡ tiling },
    pub(crate) ghost same: { regions_in tiled ≡ regions },
}

impl PackedRegions {
    ghost use Rattle.raster_model.specs.MaskView.{MaskView};
    ghost use Rattle.seam_regions.specs.Regions.{AreRegionsOf};
    ghost use Rattle.std.specs.Prelude.{IfOk};
    ghost use Rattle.surface_snapshots.specs.Packed.{ArePackedRegionsOf};

    /// Packs the regions of a tiling's raster. It fails only for lack of memory.
    pub fn of(alloc: Global, tiling: &Tiling, regions: Regions) -> Result<PackedRegions, AllocError>
        requires across { regions.width ≡ tiling.now.width }
        requires along { regions.height ≡ tiling.now.height }
        ensures { IfOk result (λ made. (mask : MaskView) → AreRegionsOf tiling.now mask regions → ArePackedRegionsOf tiling.now mask made) }
    {
        let tiled = TiledRegions::of(alloc, tiling, &regions)?;
        Ok(PackedRegions {
            tiling: *tiling,
            regions,
            tiled,
        })
    }
}
