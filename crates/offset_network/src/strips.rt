ghost use Rattle.certificates.specs.TileSets.{solved_cycles};
ghost use Rattle.offset_network.specs.Links.{AreLinks};
ghost use Rattle.offset_network.specs.Seams.{AreSeamLinks};
ghost use Rattle.offset_network.specs.Strips.{AreFound, AreLinksOfRows, IsFound};
ghost use Rattle.raster_model.specs.Masks.{open_at};
ghost use Rattle.raster_model.specs.Scene.{raster_of};
ghost use Rattle.seam_regions.specs.Regions.{AreRegionsOf, region_label};
ghost use Rattle.std.specs.Int.{div_ceil};
ghost use Rattle.std.specs.Prelude.{◌≡◌, ◌+◌, ◌*◌, ◌<◌, ◌≤◌, IfOk, length, min};

use crate::links::{links, list_for_rows, strip_links};
use crate::surface::TileSurface;
use offset_guess::Link;
use raster_model::Scene;
use seam_regions::Regions;
use side_by_side::{for_each, processors, strip_rows};
use std::alloc::{AllocError, Global};
use std::thread::Threads;

/// The least side of tiles whose links are found side by side. Smaller tiles have nearly as many links as pixels, and the
/// lists of the strips would take as much memory as the links once more.
const LEAST_SIDE: u32 = 8;

/// What a thread finds: the links of a strip of rows. There are none before, and none if memory does not suffice.
#[derive(Drop)]
pub(crate) struct Strip {
    pub(crate) links: Option<Vec<Option<Link>>>,
}

/// The links of the seam edges, in edge order, as `links` gives them. At most `threads` threads, no more than there are
/// processors, and at least one, find them side by side, each those of a strip of rows. It fails only for lack of memory.
pub(crate) fn links_side_by_side<R: Threads + Sync>(
    rt: &R,
    threads: u32,
    alloc: Global,
    surface: &TileSurface,
    regions: &Regions,
) -> Result<Vec<Option<Link>>, AllocError>
    requires regions { AreRegionsOf surface.now.scene.now.tiling surface.now.mask.now regions.now }
    ensures seams { IfOk result (λ links. AreSeamLinks (raster_of surface.now.scene.now) (open_at surface.now.mask.now) (region_label regions.now) (solved_cycles surface.now.scene.now surface.now.tiles.now.results) links.items) }
    ensures fit { IfOk result (λ links. AreLinks regions.now.count links.items) }
{
    let height = surface.scene.phase.height;
    let rows = rows_of_strips(surface.scene, threads.min(processors(rt)));
    if rows == height {
        return links(alloc, surface, regions);
    }
    let mut strips = strips(alloc, height.div_ceil(rows))?;
    links_of_strips(rt, alloc, &mut strips, surface, regions, rows)
}

/// How many rows each strip has for at most `threads` threads: all of them if tiles are small.
fn rows_of_strips(scene: &Scene, threads: u32) -> u32
    ensures some { 0 < result }
    ensures within { result ≤ scene.now.phase.height }
{
    let phase = &scene.phase;
    if scene.tiling.side < LEAST_SIDE {
        return phase.height;
    }
    strip_rows(phase.height, phase.width * phase.height, threads)
}

/// So many strips, for which nothing is found yet.
fn strips(alloc: Global, count: u32) -> Result<Vec<Strip>, AllocError>
    ensures { IfOk result (λ strips. strips.len ≡ count) }
{
    let mut strips = Vec::with_capacity(alloc, count as usize)?;
    for _ in 0..count {
        strips.push(Strip { links: None })?;
    }
    Ok(strips)
}

/// Has the links of the strips found side by side, and joins them in order. The list of a strip is given back as soon as it
/// is joined.
fn links_of_strips<R: Threads + Sync>(
    rt: &R,
    alloc: Global,
    strips: &mut [Strip],
    surface: &TileSurface,
    regions: &Regions,
    rows: u32,
) -> Result<Vec<Option<Link>>, AllocError>
    requires regions { AreRegionsOf surface.now.scene.now.tiling surface.now.mask.now regions.now }
    requires rows { (0 < rows) × (rows ≤ surface.now.scene.now.phase.height) }
    requires strips { length strips.old ≡ div_ceil surface.now.scene.now.phase.height rows }
    ensures { IfOk result (λ links. AreLinksOfRows surface.now regions.now 0 surface.now.scene.now.phase.height links.items) }
{
    find(rt, alloc, strips, surface, regions, rows);
    let scene = surface.scene;
    let mut links = list_for_rows(alloc, &scene.tiling, 0, scene.phase.height)?;
    for place in 0..strips.len() {
        let Some(more) = strips[place].links.take() else {
            return Err(AllocError);
        };
        links.extend_from_slice(&more)?;
    }
    Ok(links)
}

/// Has the links of the strips found side by side, each of which has so many rows as far as the raster goes.
fn find<R: Threads + Sync>(
    rt: &R,
    alloc: Global,
    strips: &mut [Strip],
    surface: &TileSurface,
    regions: &Regions,
    rows: u32,
)
    requires regions { AreRegionsOf surface.now.scene.now.tiling surface.now.mask.now regions.now }
    requires rows { (0 < rows) × (rows ≤ surface.now.scene.now.phase.height) }
    requires strips { length strips.old ≡ div_ceil surface.now.scene.now.phase.height rows }
    ensures same { length strips.new ≡ length strips.old }
    ensures found { AreFound surface.now regions.now rows strips.new }
{
    for_each(
        rt,
        &|place: usize, strip: &mut Strip|
            requires regions { AreRegionsOf surface.now.scene.now.tiling surface.now.mask.now regions.now }
            requires rows { rows ≤ surface.now.scene.now.phase.height }
            requires place { place * rows < surface.now.scene.now.phase.height }
            ensures { IsFound surface.entry.now regions.entry.now rows place strip.exit.now }
        {
            let first = (place * rows as usize) as u32;
            let end = (first + rows).min(surface.scene.phase.height);
            strip.links = strip_links(alloc, surface, regions, first, end).ok();
        },
        strips,
    );
}
