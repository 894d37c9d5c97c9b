ghost use Rattle.raster_model.specs.Tiles.{tiles_of};
ghost use Rattle.std.specs.Arc.{arc_value};
ghost use Rattle.std.specs.Prelude.{◌≡◌, ℕ, ◌<◌, IsTrue, Some, length, slice_get};
ghost use Rattle.surface_snapshots.specs.Runs.{AreRising, runs_of};
ghost use Rattle.surface_snapshots.specs.declared.runs.TileRuns.{TileRuns};

use crate::finding::first_after;
use crate::packing::{Packing, list_labels};
use crate::runs::{Run, TileRuns};
use crate::windows::window_at;
use raster_model::Tiling;
use seam_regions::Regions;
use std::alloc::{AllocError, Global};

/// The regions of a raster, kept tile by tile as runs of pixels. The runs of a tile number its own labels alone, so
/// tiles that follow one another share them if they are equal, and surfaces do as long as the tile's mask stays.
#[derive(Drop)]
pub(crate) struct TiledRegions {
    pub(crate) tiling: Tiling,
    labels: Vec<u32>,
    tiles: Vec<TileRuns>,
    count: u32,
    pub(crate) ghost complete: { length tiles.items ≡ tiles_of tiling },
    pub(crate) ghost rising: { (t : ℕ) (k : TileRuns) → slice_get tiles.items t ≡ Some k → AreRising (arc_value k.runs).items },
}

/// Pixels of a row that have one label.
#[derive(Clone, Copy)]
pub(crate) struct Span {
    /// How many they are.
    pub(crate) count: u32,
    pub(crate) label: u32,
    /// Where the run after theirs may be.
    pub(crate) next: usize,
}

impl TiledRegions {
    ghost use Rattle.raster_model.specs.Masks.{open_at};
    ghost use Rattle.seam_regions.specs.Regions.{masked_label, region_label};
    ghost use Rattle.std.specs.Prelude.{◌+◌, ◌≤◌, IfOk, map, unwrap_or};
    ghost use Rattle.surface_snapshots.specs.Runs.{label_there};
    ghost use Rattle.surface_snapshots.specs.Tiled.{mask_told, regions_in};

    /// The regions of a tiling's raster.
    pub(crate) fn of(
        alloc: Global,
        tiling: &Tiling,
        regions: &Regions,
    ) -> Result<TiledRegions, AllocError>
        requires across { regions.now.width ≡ tiling.now.width }
        requires along { regions.now.height ≡ tiling.now.height }
        ensures tiling { IfOk result (λ made. made.tiling ≡ tiling.now) }
        ensures regions { IfOk result (λ made. regions_in made ≡ regions.now) }
    {
        let count = tiling.tile_count();
        let mut packing = Packing::new(alloc, regions.count(), count)?;
        let mut tiles = Vec::with_capacity(alloc, count as usize)?;
        let mut list = Vec::new(alloc);
        let all = regions.labels();
        for tile in 0..count {
            list_labels(all, tiling.width, tiling.window(tile), &mut list)?;
            let packed = packing.pack(alloc, &list)?;
            let packed = beside(packed, tiles.last());
            tiles.push(packed)?;
        }
        Ok(TiledRegions {
            tiling: *tiling,
            labels: packing.labels,
            tiles,
            count: regions.count(),
        })
    }

    /// The pixels of a tile from a place on that have one label: of the next `left` ones, which stand in one row,
    /// as many as the place's run has. `hint` is where that run may be.
    pub(crate) fn span(&self, tile: u32, place: usize, left: u32, hint: usize) -> Span
        requires tile { tile < tiles_of self.now.tiling }
        requires left { 1 ≤ left }
        ensures count { (1 ≤ result.count) × (result.count ≤ left) }
        ensures label { (p : ℕ) → place ≤ p → p < place + result.count → label_there self.now.labels.items (map runs_of self.now.tiles.items) tile p ≡ result.label }
    {
        let tile = &self.tiles[tile as usize];
        let at = first_after(&tile.runs, place, hint);
        match tile.runs.get(at) {
            Some(run) => Span {
                count: (run.end as usize - place).min(left as usize) as u32,
                label: self.label_of(tile.first + run.number as usize),
                next: at + 1,
            },
            None => Span {
                count: left,
                label: u32::MAX,
                next: at,
            },
        }
    }

    /// The label at a place of the list of all tiles' labels, and that of masked pixels if there is none.
    fn label_of(&self, place: usize) -> u32
        ensures { result ≡ unwrap_or (slice_get self.now.labels.items place) masked_label }
    {
        self.labels.get(place).copied().unwrap_or(u32::MAX)
    }

    /// The label of a pixel.
    pub(crate) fn label(&self, x: u32, y: u32) -> u32
        requires across { x < self.now.tiling.width }
        requires along { y < self.now.tiling.height }
        ensures { result ≡ region_label (regions_in self.now) x y }
    {
        let window = window_at(&self.tiling, x, y);
        self.span(self.tiling.tile_of(x, y), window.place(x, y), 1, 0)
            .label
    }

    /// Whether a pixel has a region.
    pub(crate) fn is_open(&self, x: u32, y: u32) -> bool
        requires across { x < self.now.tiling.width }
        requires along { y < self.now.tiling.height }
        ensures { result ≡ open_at (mask_told (regions_in self.now)) x y }
    {
        self.label(x, y) < self.count
    }

    /// The same regions. A tile's runs are those of the other ones if they are equal.
    pub(crate) fn sharing(self, earlier: &TiledRegions) -> TiledRegions
        ensures tiling { result.tiling ≡ self.tiling }
        ensures regions { regions_in result ≡ regions_in self }
    {
        let mut tiles = self.tiles;
        let count = tiles.len().min(earlier.tiles.len());
        for tile in 0..count {
            share_runs(&mut tiles[tile], &earlier.tiles[tile]);
        }
        TiledRegions {
            tiling: self.tiling,
            labels: self.labels,
            tiles,
            count: self.count,
        }
    }
}

/// A tile that has the runs of another one, if there is one and they are equal. Most tiles are open all over, or masked.
fn beside(tile: TileRuns, other: Option<&TileRuns>) -> TileRuns
    ensures { runs_of result ≡ runs_of tile }
{
    let mut tile = tile;
    if let Some(other) = other {
        share_runs(&mut tile, other);
    }
    tile
}

/// Lets a tile have the runs of another, if they are equal. If the count of those who share is too high, it keeps its
/// own.
fn share_runs(tile: &mut TileRuns, other: &TileRuns)
    ensures { runs_of tile.new ≡ runs_of tile.old }
{
    if !are_equal(&tile.runs, &other.runs) {
        return;
    }
    if let Ok(runs) = other.runs.clone() {
        tile.runs = runs;
    }
}

/// Whether two lists of runs are equal.
fn are_equal(these: &[Run], those: &[Run]) -> bool
    ensures { IsTrue result → these.now ≡ those.now }
{
    these == those
}
