ghost use Rattle.std.specs.Prelude.{◌≡◌, IfOk};
ghost use Rattle.raster_model.specs.MaskView.{MaskView};
ghost use Rattle.seam_regions.specs.Regions.{AreRegionsOf};
ghost use Rattle.surface_snapshots.specs.Packed.{ArePackedRegionsOf};
ghost use Rattle.tile_workers.specs.Found.{AreFoundOf, regions_found};

use offset_network::plan_seams;
use raster_model::{Mask, Tiling};
use seam_regions::Regions;
use seam_walk::Plan;
use std::alloc::{AllocError, Global};
use surface_snapshots::PackedRegions;
use tile_board::PresentMask;

/// The least side of tiles whose regions are packed, and whose offsets are planned, before the offsets are found: the runs and
/// plans of smaller ones take memory that is needed then.
const PACKED_SIDE: u32 = 8;

/// The regions of a mask, which may be packed, with a plan of the guess at their offsets.
#[derive(Drop)]
pub(crate) enum FoundRegions {
    Packed(PackedRegions, Plan),
    Plain(Regions),
}

/// Regions that were found while the tiles of their mask were solved.
#[derive(Drop)]
pub(crate) struct EarlyRegions {
    pub(crate) present: PresentMask,
    pub(crate) found: FoundRegions,
}

impl FoundRegions {
    /// The regions of a tiling's raster under a mask of the same size.
    pub(crate) fn of(
        alloc: Global,
        tiling: &Tiling,
        mask: &Mask,
    ) -> Result<FoundRegions, AllocError>
        requires across { mask.now.width ≡ tiling.now.width }
        requires along { mask.now.height ≡ tiling.now.height }
        ensures { IfOk result (AreFoundOf tiling.now mask.now) }
    {
        let regions = Regions::of(alloc, tiling, mask)?;
        if tiling.side < PACKED_SIDE {
            return Ok(FoundRegions::Plain(regions));
        }
        let plan = plan_seams(alloc, tiling, &regions)?;
        let packed = PackedRegions::of(alloc, tiling, regions)?;
        Ok(FoundRegions::Packed(packed, plan))
    }

    /// The regions, pixel by pixel.
    pub(crate) fn regions(&self) -> &Regions
        ensures { result.now ≡ regions_found self.now }
    {
        match self {
            FoundRegions::Packed(packed, _) => &packed.regions,
            FoundRegions::Plain(regions) => regions,
        }
    }

    /// The plan of the guess at their offsets, if there is one.
    pub(crate) fn plan(&self) -> Option<&Plan> {
        match self {
            FoundRegions::Packed(_, plan) => Some(plan),
            FoundRegions::Plain(_) => None,
        }
    }

    /// The regions of a mask, packed.
    pub(crate) fn packed(self, alloc: Global, tiling: &Tiling) -> Result<PackedRegions, AllocError>
        requires across { (regions_found self).width ≡ tiling.now.width }
        requires along { (regions_found self).height ≡ tiling.now.height }
        ensures { IfOk result (λ made. (mask : MaskView) → AreFoundOf tiling.now mask self → ArePackedRegionsOf tiling.now mask made) }
    {
        match self {
            FoundRegions::Packed(packed, _) => Ok(packed),
            FoundRegions::Plain(regions) => PackedRegions::of(alloc, tiling, regions),
        }
    }
}
