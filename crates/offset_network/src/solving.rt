ghost use Rattle.certificates.specs.SeamVerdicts.{IsGoodAtSeams};
ghost use Rattle.certificates.specs.TileSets.{solved_cycles};
ghost use Rattle.offset_network.specs.Links.{AreLinks};
ghost use Rattle.offset_network.specs.Seams.{AreSeamLinks};
ghost use Rattle.offset_network.specs.Starts.{AreStartOffsets};
ghost use Rattle.offset_network.specs.Surfaces.{AreOffsetsAt, AreSolvedTiles};
ghost use Rattle.raster_model.specs.Scene.{raster_of};
ghost use Rattle.raster_model.specs.Masks.{open_at};
ghost use Rattle.seam_regions.specs.Regions.{AreRegionsOf, region_label, shifted_by};

use crate::answer::{anchor, flows, lowered, sums_of_three};
use crate::guessing::{Hint, Judged, guess_or_solver, judge};
use crate::lanes::lanes;
use crate::links::links;
use crate::network::solved;
use crate::places::TilePlaces;
use crate::start::Start;
use crate::strips::links_side_by_side;
use crate::surface::TileSurface;
use certificates::{SeamResult, TileSet};
use offset_guess::Link;
use raster_model::{Mask, Scene};
use seam_regions::Regions;
use std::alloc::{AllocError, Global};
use std::thread::Threads;

/// Finds whole cycles for each region of a scene under a mask, in the order of the regions' numbers, and the flows that
/// certify them, one for each seam edge in edge order. Added to the cycles of the tiles' results, the offsets make a
/// surface that equals the phase at the first open pixel in row order. No offsets make its seams cost less. `revision`
/// is the revision of the mask. It fails only for lack of memory. (Chen and Zebker 2002.)
pub fn solve_offsets(
    alloc: Global,
    scene: &Scene,
    mask: &Mask,
    regions: &Regions,
    tiles: &TileSet,
    revision: u32,
) -> Result<SeamResult, AllocError>
    requires { AreSolvedTiles scene.now mask.now regions.now tiles.now }
    ensures { AreOffsetsAt scene.now mask.now regions.now tiles.now revision result }
{
    solve_offsets_from(alloc, scene, mask, regions, tiles, revision, Hint::Nothing)
}

/// Finds offsets as `solve_offsets` does, from a guess at them and at their flows, or from that of `offset_guess` if none is
/// given; this takes less time with a plan that was made before. The offsets of a guess are lowered together so that the surface meets the first open pixel. A guess that then
/// certifies itself is taken. From the offsets of any other the network starts, if there is one for each region and they and
/// the departures with them are in range, and else from nothing: so a guess can cost time, and nothing else. (McConnell,
/// Mehlhorn, Naeher and Schweitzer 2011.)
pub fn solve_offsets_from(
    alloc: Global,
    scene: &Scene,
    mask: &Mask,
    regions: &Regions,
    tiles: &TileSet,
    revision: u32,
    hint: Hint<'_>,
) -> Result<SeamResult, AllocError>
    requires { AreSolvedTiles scene.now mask.now regions.now tiles.now }
    ensures { AreOffsetsAt scene.now mask.now regions.now tiles.now revision result }
{
    let places = TilePlaces::of(alloc, &scene.tiling)?;
    let surface = TileSurface {
        scene,
        mask,
        tiles,
        places: &places,
    };
    let links = links(alloc, &surface, regions)?;
    over_links(alloc, &surface, regions, links, revision, hint)
}

/// Finds offsets as `solve_offsets_from` does, where at most `threads` threads, no more than there are processors, list the
/// links of the seam edges side by side.
pub fn solve_offsets_side_by_side<R: Threads + Sync>(
    rt: &R,
    threads: u32,
    alloc: Global,
    scene: &Scene,
    mask: &Mask,
    regions: &Regions,
    tiles: &TileSet,
    revision: u32,
    hint: Hint<'_>,
) -> Result<SeamResult, AllocError>
    requires { AreSolvedTiles scene.now mask.now regions.now tiles.now }
    ensures { AreOffsetsAt scene.now mask.now regions.now tiles.now revision result }
{
    let places = TilePlaces::of(alloc, &scene.tiling)?;
    let surface = TileSurface {
        scene,
        mask,
        tiles,
        places: &places,
    };
    let links = links_side_by_side(rt, threads, alloc, &surface, regions)?;
    over_links(alloc, &surface, regions, links, revision, hint)
}

/// Finds them over the links of the seam edges, from what is there for a guess.
fn over_links(
    alloc: Global,
    surface: &TileSurface,
    regions: &Regions,
    links: Vec<Option<Link>>,
    revision: u32,
    hint: Hint<'_>,
) -> Result<SeamResult, AllocError>
    requires regions { AreRegionsOf surface.now.scene.now.tiling surface.now.mask.now regions.now }
    requires links { AreLinks regions.now.count links.items }
    requires seams { AreSeamLinks (raster_of surface.now.scene.now) (open_at surface.now.mask.now) (region_label regions.now) (solved_cycles surface.now.scene.now surface.now.tiles.now.results) links.items }
    ensures { AreOffsetsAt surface.now.scene.now surface.now.mask.now regions.now surface.now.tiles.now revision result }
{
    let guess = guess_or_solver(alloc, surface, regions, &links, hint)?;
    match judge(alloc, surface, regions, &links, guess, revision)? {
        Judged::Certified(solved) => Ok(solved),
        Judged::Dropped(offsets) => {
            let start = Start::from(alloc, offsets, regions.count(), links)?;
            by_network(alloc, surface, regions, &start, revision)
        }
    }
}

/// Finds them by the proved network, from a start.
fn by_network(
    alloc: Global,
    surface: &TileSurface,
    regions: &Regions,
    start: &Start,
    revision: u32,
) -> Result<SeamResult, AllocError>
    requires regions { AreRegionsOf surface.now.scene.now.tiling surface.now.mask.now regions.now }
    requires offsets { AreStartOffsets regions.now.count start.now.offsets.items }
    requires links { AreLinks regions.now.count start.now.links.items }
    requires seams { AreSeamLinks (raster_of surface.now.scene.now) (open_at surface.now.mask.now) (region_label regions.now) (shifted_by regions.now start.now.offsets.items (solved_cycles surface.now.scene.now surface.now.tiles.now.results)) start.now.links.items }
    ensures { AreOffsetsAt surface.now.scene.now surface.now.mask.now regions.now surface.now.tiles.now revision result }
{
    let count = regions.count();
    let lanes = lanes(alloc, &start.links, surface.scene.terms.steep, count)?;
    let net = solved(alloc, count, &lanes)?;
    let parts = flows(alloc, &net, &lanes)?;
    let flows = sums_of_three(alloc, &parts, start.links.len())?;
    let by = anchor(surface, regions, &net, &start.offsets);
    let offsets = lowered(alloc, &net, &start.offsets, by)?;
    Ok(SeamResult {
        revision,
        offsets,
        flows,
    })
}
