ghost use Rattle.offset_network.specs.Links.{AreLinks, IsLinkIn};
ghost use Rattle.offset_network.specs.Rooms.{room_of_links};
ghost use Rattle.offset_network.specs.Seams.{AddsLink, AddsLinksFrom, AreSeamLinks, link_of};
ghost use Rattle.offset_network.specs.Strips.{AreLinksOfRows};
ghost use Rattle.certificates.specs.TileSets.{solved_cycles};
ghost use Rattle.raster_model.specs.Flows.{is_seam_edge as is_seam_edge_of};
ghost use Rattle.raster_model.specs.Masks.{open_at};
ghost use Rattle.raster_model.specs.Scene.{raster_of};
ghost use Rattle.seam_regions.specs.Regions.{AreRegionsOf, region_label};
ghost use Rattle.std.specs.Prelude.{◌≡◌, ◌<◌, ◌≤◌, [], IfOk, IsTrue, OnOk, vec_capacity};

use crate::surface::TileSurface;
use certificates::{TileEnds, is_seam_edge, next_start};
use offset_guess::Link;
use raster_model::{Edge, Tiling, weight};
use seam_regions::Regions;
use std::alloc::{AllocError, Global};

/// The link of a seam edge, or None if an end is masked.
fn link(surface: &TileSurface, regions: &Regions, edge: Edge) -> Option<Link>
    requires seam { IsTrue (is_seam_edge_of (raster_of surface.now.scene.now) edge) }
    requires regions { AreRegionsOf surface.now.scene.now.tiling surface.now.mask.now regions.now }
    ensures value { result ≡ link_of (raster_of surface.now.scene.now) (open_at surface.now.mask.now) (region_label regions.now) (solved_cycles surface.now.scene.now surface.now.tiles.now.results) edge }
    ensures fits { IsLinkIn regions.now.count result }
{
    let from = regions.region(edge.x, edge.y)?;
    let to = regions.region(edge.end_x(), edge.end_y())?;
    Some(Link {
        from,
        to,
        weight: weight(surface.scene, surface.mask, edge),
        departure: surface.departure(edge),
    })
}

/// Appends the link of an edge that starts at a pixel, if it is a seam edge.
fn push_link(
    surface: &TileSurface,
    ends: &TileEnds,
    regions: &Regions,
    edge: Edge,
    links: &mut Vec<Option<Link>>,
) -> Result<(), AllocError>
    requires side { ends.now.side ≡ surface.now.scene.now.tiling.side }
    requires start { (edge.x < surface.now.scene.now.phase.width) × (edge.y < surface.now.scene.now.phase.height) }
    requires regions { AreRegionsOf surface.now.scene.now.tiling surface.now.mask.now regions.now }
    ensures { OnOk result (AddsLink (raster_of surface.now.scene.now) (open_at surface.now.mask.now) (region_label regions.now) regions.now.count (solved_cycles surface.now.scene.now surface.now.tiles.now.results) edge links.old.items links.new.items) }
{
    if is_seam_edge(surface.scene, ends, edge) {
        links.push(link(surface, regions, edge))?;
    }
    Ok(())
}

/// Appends the links of the edges that start at a pixel.
fn push_links_from(
    surface: &TileSurface,
    ends: &TileEnds,
    regions: &Regions,
    x: u32,
    y: u32,
    links: &mut Vec<Option<Link>>,
) -> Result<(), AllocError>
    requires side { ends.now.side ≡ surface.now.scene.now.tiling.side }
    requires pixel { (x < surface.now.scene.now.phase.width) × (y < surface.now.scene.now.phase.height) }
    requires regions { AreRegionsOf surface.now.scene.now.tiling surface.now.mask.now regions.now }
    ensures { OnOk result (AddsLinksFrom (raster_of surface.now.scene.now) (open_at surface.now.mask.now) (region_label regions.now) regions.now.count (solved_cycles surface.now.scene.now surface.now.tiles.now.results) x y links.old.items links.new.items) }
{
    push_link(surface, ends, regions, Edge { x, y, down: false }, links)?;
    push_link(surface, ends, regions, Edge { x, y, down: true }, links)
}

/// For how many links the rows from `first` to before `end` need room: in each row one at each column where a tile ends, and
/// one at each column of a row where a tile ends, but none where the raster ends.
fn seam_room(tiling: &Tiling, first: u32, end: u32) -> usize
    requires rows { (first ≤ end) × (end ≤ tiling.now.height) }
    ensures { result ≡ room_of_links tiling.now first end }
{
    let right = (end - first) as usize * ((tiling.width - 1) / tiling.side) as usize;
    let rows = (end.min(tiling.height - 1) / tiling.side).saturating_sub(first / tiling.side);
    right + rows as usize * tiling.width as usize
}

/// An empty list with room for the links of the rows from `first` to before `end`.
pub(crate) fn list_for_rows(
    alloc: Global,
    tiling: &Tiling,
    first: u32,
    end: u32,
) -> Result<Vec<Option<Link>>, AllocError>
    requires rows { (first ≤ end) × (end ≤ tiling.now.height) }
    ensures { IfOk result (λ links. (links.items ≡ []) × (vec_capacity links ≡ room_of_links tiling.now first end)) }
{
    Vec::with_capacity(alloc, seam_room(tiling, first, end))
}

/// The links of the seam edges that start in the rows from `first` to before `end`, in edge order.
pub(crate) fn strip_links(
    alloc: Global,
    surface: &TileSurface,
    regions: &Regions,
    first: u32,
    end: u32,
) -> Result<Vec<Option<Link>>, AllocError>
    requires regions { AreRegionsOf surface.now.scene.now.tiling surface.now.mask.now regions.now }
    requires rows { (first ≤ end) × (end ≤ surface.now.scene.now.phase.height) }
    ensures { IfOk result (λ links. AreLinksOfRows surface.now regions.now first end links.items) }
{
    let ends = TileEnds::of(&surface.scene.tiling);
    let mut links = list_for_rows(alloc, &surface.scene.tiling, first, end)?;
    for y in first..end {
        let mut x = next_start(surface.scene, &ends, 0, y);
        while x < surface.scene.phase.width {
            push_links_from(surface, &ends, regions, x, y, &mut links)?;
            x = next_start(surface.scene, &ends, x + 1, y);
        }
    }
    Ok(links)
}

/// The links of the seam edges, in edge order.
pub(crate) fn links(
    alloc: Global,
    surface: &TileSurface,
    regions: &Regions,
) -> Result<Vec<Option<Link>>, AllocError>
    requires regions { AreRegionsOf surface.now.scene.now.tiling surface.now.mask.now regions.now }
    ensures seams { IfOk result (λ links. AreSeamLinks (raster_of surface.now.scene.now) (open_at surface.now.mask.now) (region_label regions.now) (solved_cycles surface.now.scene.now surface.now.tiles.now.results) links.items) }
    ensures fit { IfOk result (λ links. AreLinks regions.now.count links.items) }
{
    strip_links(alloc, surface, regions, 0, surface.scene.phase.height)
}
