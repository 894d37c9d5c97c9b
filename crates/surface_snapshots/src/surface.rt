ghost use Rattle.raster_model.specs.Masks.{open_at};
ghost use Rattle.seam_regions.specs.Offsets.{AreNear};
ghost use Rattle.std.specs.Arc.{arc_value};
ghost use Rattle.std.specs.Prelude.{◌≡◌, IfOk, length};
ghost use Rattle.surface_snapshots.specs.Kept.{parts_kept};
ghost use Rattle.surface_snapshots.specs.Loops.{GoTogether};
ghost use Rattle.surface_snapshots.specs.Parts.{HaveCosts, IsPublished};
ghost use Rattle.surface_snapshots.specs.Tiled.{mask_told, regions_in};

use crate::costs::Certified;
use crate::flows::{shared_flows, to_share};
use crate::tiled::TiledRegions;
use certificates::{SeamResult, TileSet};
use raster_model::{Mask, Session};
use seam_regions::Regions;
use std::alloc::{AllocError, Global};
use std::sync::Arc;

/// All that a snapshot has: snapshots of one surface share it.
#[derive(Drop)]
pub(crate) struct Surface {
    pub(crate) session: Arc<Session>,
    pub(crate) regions: TiledRegions,
    pub(crate) tiles: TileSet,
    pub(crate) revision: u32,
    pub(crate) offsets: Vec<i64>,
    pub(crate) flows: Arc<Vec<i64>>,
    pub(crate) tile_cost: u128,
    pub(crate) seam_cost: u128,
    pub(crate) ghost together: { GoTogether (arc_value session).scene (mask_told (regions_in regions)) (regions_in regions) tiles.results },
    pub(crate) ghost tiling: { tiles.tiling ≡ (arc_value session).scene.tiling },
    pub(crate) ghost places: { regions.tiling ≡ (arc_value session).scene.tiling },
    pub(crate) ghost count: { length offsets.items ≡ (regions_in regions).count },
    pub(crate) ghost near: { AreNear offsets.items },
    pub(crate) ghost published: { IsPublished (parts_kept (arc_value session) (regions_in regions) tiles revision offsets.items (arc_value flows).items) },
    pub(crate) ghost costs: { HaveCosts (parts_kept (arc_value session) (regions_in regions) tiles revision offsets.items (arc_value flows).items) tile_cost seam_cost },
}

impl Surface {
    ghost use Rattle.certificates.specs.declared.verdicts.SeamVerdict.TheVariants.{Good};
    ghost use Rattle.seam_regions.specs.Regions.{AreRegionsOf};
    ghost use Rattle.surface_snapshots.specs.Parts.{AreGoodTiles, parts_from};
    ghost use Rattle.surface_snapshots.specs.Surfaces.{parts_in};
    ghost use Rattle.surface_snapshots.specs.Verdicts.{IsPartsVerdict};

    /// The surface that is put together from these parts, which are certified, beside an earlier one. Its regions tile by
    /// tile and its costs are given.
    pub(crate) fn of(
        alloc: Global,
        earlier: Option<&Surface>,
        certified: Certified,
        session: Arc<Session>,
        mask: Mask,
        regions: Regions,
        tiles: TileSet,
        seams: SeamResult,
    ) -> Result<Surface, AllocError>
        requires across { mask.width ≡ (arc_value session).scene.phase.width }
        requires along { mask.height ≡ (arc_value session).scene.phase.height }
        requires tiling { tiles.tiling ≡ (arc_value session).scene.tiling }
        requires tiles { AreGoodTiles (arc_value session).scene (open_at mask) tiles.results }
        requires regions { AreRegionsOf (arc_value session).scene.tiling mask regions }
        requires places { certified.regions.tiling ≡ (arc_value session).scene.tiling }
        requires same { regions_in certified.regions ≡ regions }
        requires told { mask ≡ mask_told regions }
        requires good { IsPartsVerdict (parts_from (arc_value session) mask regions tiles seams) Good }
        requires costs { HaveCosts (parts_from (arc_value session) mask regions tiles seams) certified.costs.tiles certified.costs.seams }
        ensures parts { IfOk result (λ made. parts_in made ≡ parts_from (arc_value session) mask regions tiles seams) }
        ensures certified { IfOk result (λ made. IsPartsVerdict (parts_in made) Good) }
    {
        let costs = certified.costs;
        let flows = flows_beside(alloc, earlier, seams.flows)?;
        Ok(Surface {
            session,
            regions: regions_beside(earlier, certified.regions),
            tiles,
            revision: seams.revision,
            offsets: seams.offsets,
            flows,
            tile_cost: costs.tiles,
            seam_cost: costs.seams,
        })
    }
}

/// Regions that have the runs of an earlier surface's tiles, if they are equal.
fn regions_beside(earlier: Option<&Surface>, regions: TiledRegions) -> TiledRegions
    ensures tiling { result.tiling ≡ regions.tiling }
    ensures regions { regions_in result ≡ regions_in regions }
{
    match earlier {
        Some(surface) => regions.sharing(&surface.regions),
        None => regions,
    }
}

/// Flows that surfaces can share: those of an earlier surface, if they are equal.
fn flows_beside(
    alloc: Global,
    earlier: Option<&Surface>,
    flows: Vec<i64>,
) -> Result<Arc<Vec<i64>>, AllocError>
    ensures { IfOk result (λ kept. (arc_value kept).items ≡ flows.items) }
{
    let flows = to_share(alloc, flows)?;
    match earlier {
        Some(surface) => Ok(shared_flows(flows, &surface.flows)),
        None => Ok(flows),
    }
}
