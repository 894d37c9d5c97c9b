ghost use Rattle.certificates.specs.TileSets.{solved_cycles};
ghost use Rattle.offset_network.specs.Surfaces.{IsGoodTileSet};
ghost use Rattle.raster_model.specs.Masks.{open_at};
ghost use Rattle.raster_model.specs.Raster.{cycle_departure, has_open_ends};
ghost use Rattle.raster_model.specs.Scene.{raster_of};
ghost use Rattle.raster_model.specs.Sums.{is_edge, is_pixel};
ghost use Rattle.std.specs.Prelude.{◌≡◌, ◌≤◌, ◌&&◌, IsTrue, unsigned_abs};

use crate::places::TilePlaces;
use certificates::TileSet;
use raster_model::{Edge, MAX_SEAM_DEPARTURE, MAX_TILE_CYCLES, Mask, Scene, turns};

/// The surface of the tiles' results, each as it was solved, without offsets.
#[derive(Clone, Copy)]
pub(crate) struct TileSurface<'a> {
    pub(crate) scene: &'a Scene,
    pub(crate) mask: &'a Mask,
    pub(crate) tiles: &'a TileSet,
    pub(crate) places: &'a TilePlaces,
    pub(crate) ghost same_size: { (mask.now.width ≡ scene.now.phase.width) × (mask.now.height ≡ scene.now.phase.height) },
    pub(crate) ghost good: { IsGoodTileSet scene.now (open_at mask.now) tiles.now },
    pub(crate) ghost same_tiling: { places.now.tiling ≡ scene.now.tiling },
}

impl TileSurface<'_> {
    /// The cycles above the phase at an open pixel.
    pub(crate) fn at(&self, x: u32, y: u32) -> i32
        requires { IsTrue (is_pixel self.now.scene.now.phase.width self.now.scene.now.phase.height x y && open_at self.now.mask.now x y) }
        ensures value { result ≡ solved_cycles self.now.scene.now self.now.tiles.now.results x y }
        ensures small { unsigned_abs result ≤ MAX_TILE_CYCLES }
    {
        let spot = self.places.locate(x, y);
        self.tiles.tile(spot.tile).cycles[spot.window.place(x, y)]
    }

    /// By how many whole cycles the surface departs from the wrapped difference of an edge with open ends.
    pub(crate) fn departure(&self, edge: Edge) -> i32
        requires is_edge { IsTrue (is_edge self.now.scene.now.phase.width self.now.scene.now.phase.height edge) }
        requires open_ends { IsTrue (has_open_ends (open_at self.now.mask.now) edge) }
        ensures value { result ≡ cycle_departure (raster_of self.now.scene.now) (solved_cycles self.now.scene.now self.now.tiles.now.results) edge }
        ensures small { unsigned_abs result ≤ MAX_SEAM_DEPARTURE }
    {
        let to = self.at(edge.end_x(), edge.end_y());
        let from = self.at(edge.x, edge.y);
        to - from + turns(self.scene, edge)
    }
}
