ghost use Rattle.certificates.specs.declared.verdicts.SeamVerdict.TheVariants.{Good};
ghost use Rattle.raster_model.specs.Masks.{open_at};
ghost use Rattle.seam_regions.specs.Offsets.{AreNear};
ghost use Rattle.seam_regions.specs.Regions.{AreRegionsOf};
ghost use Rattle.std.specs.Prelude.{◌≡◌, IfErr, IfOk, length};
ghost use Rattle.surface_snapshots.specs.Parts.{AreGoodTiles, HaveCosts, parts_from};
ghost use Rattle.surface_snapshots.specs.Packed.{ArePackedRegionsOf};
ghost use Rattle.surface_snapshots.specs.Tiled.{mask_told, regions_in};
ghost use Rattle.surface_snapshots.specs.Verdicts.{IsFault, IsPartsVerdict};

use crate::counting::Costs;
use crate::fault::BuildFault;
use crate::levels::Levels;
use crate::packed::PackedRegions;
use crate::shifted::ShiftedTiles;
use crate::tiled::TiledRegions;
use certificates::{SeamResult, SeamVerdict, TileSet};
use raster_model::{Mask, Scene, Session};
use seam_regions::{Regions, first_far};
use std::alloc::{AllocError, Global};
use std::thread::Threads;

/// What is kept of the regions and the costs of a surface that is certified.
#[derive(Drop)]
pub(crate) struct Certified {
    pub(crate) regions: TiledRegions,
    pub(crate) costs: Costs,
}

/// The regions, tile by tile, and the costs of the surface that is put together from these parts, if it is certified, and
/// otherwise the first break or lack of memory.
pub(crate) fn judged_costs(
    alloc: Global,
    session: &Session,
    mask: &Mask,
    regions: &Regions,
    tiles: &TileSet,
    seams: &SeamResult,
) -> Result<Certified, BuildFault>
    requires across { mask.now.width ≡ session.now.scene.phase.width }
    requires along { mask.now.height ≡ session.now.scene.phase.height }
    requires tiling { tiles.now.tiling ≡ session.now.scene.tiling }
    requires tiles { AreGoodTiles session.now.scene (open_at mask.now) tiles.now.results }
    requires regions { AreRegionsOf session.now.scene.tiling mask.now regions.now }
    ensures refused { IfErr result (IsFault (parts_from session.now mask.now regions.now tiles.now seams.now)) }
    ensures tiling { IfOk result (λ made. made.regions.tiling ≡ session.now.scene.tiling) }
    ensures regions { IfOk result (λ made. regions_in made.regions ≡ regions.now) }
    ensures mask { IfOk result (λ made. mask.now ≡ mask_told regions.now) }
    ensures certified { IfOk result (λ made. IsPartsVerdict (parts_from session.now mask.now regions.now tiles.now seams.now) Good) }
    ensures costs { IfOk result (λ made. HaveCosts (parts_from session.now mask.now regions.now tiles.now seams.now) made.costs.tiles made.costs.seams) }
{
    if seams.offsets.len() != regions.count() as usize {
        return Err(BuildFault::Uncertified(SeamVerdict::Shape));
    }
    if let Some(region) = first_far(&seams.offsets) {
        return Err(BuildFault::Uncertified(SeamVerdict::Range(region as u32)));
    }
    let tiled = TiledRegions::of(alloc, &session.scene.tiling, regions)?;
    let costs = {
        let surface = shifted(session, mask, regions, &tiled, tiles, &seams.offsets);
        let levels = Levels::of(alloc, surface)?;
        match levels.judge(alloc, mask, regions, &seams.flows)? {
            SeamVerdict::Good => Costs::of(&session.scene, mask, &levels),
            verdict => return Err(BuildFault::Uncertified(verdict)),
        }
    };
    Ok(Certified {
        regions: tiled,
        costs,
    })
}

/// The costs of the surface that is put together from these parts, which are certified. At most `threads` threads, and at
/// least one, count them. It fails only for lack of memory.
pub(crate) fn certified_costs<R: Threads + Sync>(
    rt: &R,
    threads: u32,
    alloc: Global,
    session: &Session,
    mask: &Mask,
    packed: &PackedRegions,
    tiles: &TileSet,
    seams: &SeamResult,
) -> Result<Costs, AllocError>
    requires across { mask.now.width ≡ session.now.scene.phase.width }
    requires along { mask.now.height ≡ session.now.scene.phase.height }
    requires tiling { tiles.now.tiling ≡ session.now.scene.tiling }
    requires tiles { AreGoodTiles session.now.scene (open_at mask.now) tiles.now.results }
    requires regions { ArePackedRegionsOf session.now.scene.tiling mask.now packed.now }
    requires certified { IsPartsVerdict (parts_from session.now mask.now packed.now.regions tiles.now seams.now) Good }
    ensures mask { IfOk result (λ costs. mask.now ≡ mask_told packed.now.regions) }
    ensures costs { IfOk result (λ costs. HaveCosts (parts_from session.now mask.now packed.now.regions tiles.now seams.now) costs.tiles costs.seams) }
{
    let PackedRegions { regions, tiled, .. } = packed;
    let surface = shifted(session, mask, regions, tiled, tiles, &seams.offsets);
    Costs::side_by_side(rt, threads, alloc, &surface, mask)
}

/// The results of a session's tiles with these offsets on the regions of a mask, which are also given tile by tile.
fn shifted<'a>(
    session: &'a Session,
    mask: &Mask,
    regions: &Regions,
    tiled: &'a TiledRegions,
    tiles: &'a TileSet,
    offsets: &'a [i64],
) -> ShiftedTiles<'a>
    requires across { mask.now.width ≡ session.now.scene.phase.width }
    requires along { mask.now.height ≡ session.now.scene.phase.height }
    requires tiling { tiles.now.tiling ≡ session.now.scene.tiling }
    requires tiles { AreGoodTiles session.now.scene (open_at mask.now) tiles.now.results }
    requires regions { AreRegionsOf session.now.scene.tiling mask.now regions.now }
    requires places { tiled.now.tiling ≡ session.now.scene.tiling }
    requires same { regions_in tiled.now ≡ regions.now }
    requires count { length offsets.now ≡ regions.now.count }
    requires near { AreNear offsets.now }
    ensures scene { result.scene.now ≡ session.now.scene }
    ensures regions { result.regions.now ≡ tiled.now }
    ensures tiles { result.tiles.now ≡ tiles.now }
    ensures offsets { result.offsets.now ≡ offsets.now }
    ensures mask { mask.now ≡ mask_told regions.now }
{
    told_by(&session.scene, mask, regions);
    ShiftedTiles {
        scene: &session.scene,
        regions: tiled,
        tiles,
        offsets,
    }
}

/// The regions determine the mask. This function does nothing; its contract is that fact.
fn told_by(scene: &Scene, mask: &Mask, regions: &Regions)
    requires across { mask.now.width ≡ scene.now.phase.width }
    requires along { mask.now.height ≡ scene.now.phase.height }
    requires regions { AreRegionsOf scene.now.tiling mask.now regions.now }
    ensures { mask.now ≡ mask_told regions.now }
{
    // Their contracts say what every mask and all regions keep.
    let _width = mask.width();
    let _labels = regions.labels();
}
