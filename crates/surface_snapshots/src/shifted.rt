ghost use Rattle.raster_model.specs.Tiles.{tile_at, window_of};
ghost use Rattle.seam_regions.specs.Offsets.{AreNear};
ghost use Rattle.std.specs.Prelude.{◌≡◌, ◌<◌, length};
ghost use Rattle.surface_snapshots.specs.Loops.{GoTogether};
ghost use Rattle.surface_snapshots.specs.Tiled.{mask_told, regions_in};

use crate::tiled::TiledRegions;
use crate::windows::window_at;
use certificates::TileSet;
use raster_model::{MAX_OFFSET, MAX_TILE_CYCLES, Scene, Window};

/// What stands for the cycles of a masked pixel.
pub(crate) const NO_CYCLES: i64 = i64::MIN;

/// The results of a scene's tiles, with an offset added on each region.
#[derive(Clone, Copy)]
pub(crate) struct ShiftedTiles<'a> {
    pub(crate) scene: &'a Scene,
    pub(crate) regions: &'a TiledRegions,
    pub(crate) tiles: &'a TileSet,
    pub(crate) offsets: &'a [i64],
    pub(crate) ghost tiling: { tiles.now.tiling ≡ scene.now.tiling },
    pub(crate) ghost places: { regions.now.tiling ≡ scene.now.tiling },
    pub(crate) ghost together: { GoTogether scene.now (mask_told (regions_in regions.now)) (regions_in regions.now) tiles.now.results },
    pub(crate) ghost count: { length offsets.now ≡ (regions_in regions.now).count },
    pub(crate) ghost near: { AreNear offsets.now },
}

impl ShiftedTiles<'_> {
    ghost use Rattle.std.specs.Prelude.{ℕ, ◌+◌, ◌-◌, ◌*◌, ◌≤◌, ◌^◌, ◌+ℤ◌, IsTrue, pos, slice_index_or, unsigned_abs};
    ghost use Rattle.certificates.specs.TileSets.{solved_cycles};
    ghost use Rattle.seam_regions.specs.Regions.{offset_at};
    ghost use Rattle.surface_snapshots.specs.Parts.{BeginsWithRow, is_open_pixel, shifted_cycles};
    ghost use Rattle.surface_snapshots.specs.Shifted.{AreLevelsFrom, HasCycles, IsSpan, IsStrip, level_at, no_cycles, open_under};

    /// The cycles above the phase at an open pixel.
    pub(crate) fn at(&self, x: u32, y: u32) -> i64
        requires open_pixel { IsTrue (is_open_pixel self.now.scene.now.phase.width self.now.scene.now.phase.height (open_under self.now) x y) }
        ensures value { result ≡ shifted_cycles self.now.scene.now (regions_in self.now.regions.now) self.now.tiles.now.results self.now.offsets.now x y }
        ensures small { unsigned_abs result ≤ MAX_OFFSET + MAX_TILE_CYCLES }
    {
        let tile = self.scene.tiling.tile_of(x, y);
        let window = window_at(&self.scene.tiling, x, y);
        self.solved(tile, window, x, y) + self.offset(x, y)
    }

    /// The cycles that the result of an open pixel's tile has there.
    fn solved(&self, tile: u32, window: Window, x: u32, y: u32) -> i64
        requires open_pixel { IsTrue (is_open_pixel self.now.scene.now.phase.width self.now.scene.now.phase.height (open_under self.now) x y) }
        requires tile { tile ≡ tile_at self.now.scene.now.tiling x y }
        requires window { window ≡ window_of self.now.scene.now.tiling tile }
        ensures value { result ≡ solved_cycles self.now.scene.now self.now.tiles.now.results x y }
        ensures small { unsigned_abs result ≤ MAX_TILE_CYCLES }
    {
        i64::from(self.tiles.tile(tile).cycles[window.place(x, y)])
    }

    /// The offset of an open pixel's region.
    fn offset(&self, x: u32, y: u32) -> i64
        requires open_pixel { IsTrue (is_open_pixel self.now.scene.now.phase.width self.now.scene.now.phase.height (open_under self.now) x y) }
        ensures value { result ≡ offset_at (regions_in self.now.regions.now) self.now.offsets.now x y }
        ensures small { unsigned_abs result ≤ MAX_OFFSET }
    {
        let region = self.regions.label(x, y);
        self.offsets[region as usize]
    }

    /// Puts the cycles of row `y` into the front of `row`, and `NO_CYCLES` where a pixel is masked.
    pub(crate) fn fill_row(&self, y: u32, row: &mut [i64])
        requires along { y < self.now.scene.now.phase.height }
        requires room { self.now.scene.now.phase.width ≤ length row.old }
        ensures same { length row.new ≡ length row.old }
        ensures front { BeginsWithRow (level_at self.now) y self.now.scene.now.phase.width row.new }
    {
        let mut x = 0;
        while x < self.scene.phase.width {
            let tile = self.scene.tiling.tile_of(x, y);
            let window = window_at(&self.scene.tiling, x, y);
            self.fill_piece(tile, window, x, y, row);
            x = window.x1 + 1;
        }
    }

    /// Puts the cycles of whole rows into `part` in the same way, as many rows as it has room for. `start` is the place of
    /// the first pixel in row order.
    pub(crate) fn fill_strip(&self, start: usize, part: &mut [i64])
        requires strip { IsStrip self.now start (length part.old) }
        ensures same { length part.new ≡ length part.old }
        ensures filled { AreLevelsFrom self.now start (length part.old) part.new }
    {
        let width = self.scene.phase.width as usize;
        let first = start / width;
        for row in 0..part.len() / width {
            self.fill_row((first + row) as u32, &mut part[row * width..]);
        }
    }

    /// The same of the pixels from `x` to the end of its tile.
    fn fill_piece(&self, tile: u32, window: Window, x: u32, y: u32, row: &mut [i64])
        requires pixel { (x < self.now.scene.now.phase.width) × (y < self.now.scene.now.phase.height) }
        requires tile { tile ≡ tile_at self.now.scene.now.tiling x y }
        requires window { window ≡ window_of self.now.scene.now.tiling tile }
        requires room { self.now.scene.now.phase.width ≤ length row.old }
        requires front { BeginsWithRow (level_at self.now) y x row.old }
        ensures same { length row.new ≡ length row.old }
        ensures front { BeginsWithRow (level_at self.now) y (window.x1 + 1) row.new }
    {
        let cycles = &self.tiles.tile(tile).cycles;
        let mut column = x;
        let mut hint = 0;
        while column < window.x1 + 1 {
            let left = window.x1 + 1 - column;
            let span = self.regions.span(tile, window.place(column, y), left, hint);
            let end = column + span.count;
            self.fill_span(cycles, window, column, end, y, span.label, row);
            column = end;
            hint = span.next;
        }
    }

    /// The same of the pixels from column `x` to before column `end`, which have one label, in a tile that has these
    /// cycles. Where the label is no region's, they are masked.
    fn fill_span(
        &self,
        cycles: &[i32],
        window: Window,
        x: u32,
        end: u32,
        y: u32,
        label: u32,
        row: &mut [i64],
    )
        requires span { IsSpan self.now window x end y label }
        requires cycles { HasCycles self.now (tile_at self.now.scene.now.tiling x y) cycles.now }
        requires room { self.now.scene.now.phase.width ≤ length row.old }
        requires front { BeginsWithRow (level_at self.now) y x row.old }
        ensures same { length row.new ≡ length row.old }
        ensures front { BeginsWithRow (level_at self.now) y end row.new }
    {
        match self.offsets.get(label as usize) {
            Some(&offset) => self.fill_open(cycles, window.place(x, y), offset, x, end, y, row),
            None => self.fill_masked(x, end, y, row),
        }
    }

    /// The same of open pixels, whose cycles stand in a list from a place on, with an offset.
    fn fill_open(
        &self,
        cycles: &[i32],
        place: usize,
        offset: i64,
        x: u32,
        end: u32,
        y: u32,
        row: &mut [i64],
    )
        requires end { (x ≤ end) × (end ≤ self.now.scene.now.phase.width) }
        requires cycles { place + (end - x) ≤ length cycles.now }
        requires offset { unsigned_abs offset ≤ MAX_OFFSET }
        requires levels { (c : ℕ) → x ≤ c → c < end → slice_index_or cycles.now (place + (c - x)) (pos 0) +ℤ offset ≡ level_at self.now c y }
        requires room { self.now.scene.now.phase.width ≤ length row.old }
        requires front { BeginsWithRow (level_at self.now) y x row.old }
        ensures same { length row.new ≡ length row.old }
        ensures front { BeginsWithRow (level_at self.now) y end row.new }
    {
        for column in x..end {
            row[column as usize] = i64::from(cycles[place + (column - x) as usize]) + offset;
        }
    }

    /// The same of masked pixels.
    fn fill_masked(&self, x: u32, end: u32, y: u32, row: &mut [i64])
        requires end { (x ≤ end) × (end ≤ self.now.scene.now.phase.width) }
        requires levels { (c : ℕ) → x ≤ c → c < end → no_cycles ≡ level_at self.now c y }
        requires room { self.now.scene.now.phase.width ≤ length row.old }
        requires front { BeginsWithRow (level_at self.now) y x row.old }
        ensures same { length row.new ≡ length row.old }
        ensures front { BeginsWithRow (level_at self.now) y end row.new }
    {
        for column in x..end {
            row[column as usize] = NO_CYCLES;
        }
    }
}
