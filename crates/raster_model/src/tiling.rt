ghost use Rattle.raster_model.specs.Limits.{IsTileSide, max_side, max_tiled_pixels, max_tiled_side};
ghost use Rattle.std.specs.Prelude.{◌≡◌, ◌*◌, ◌≤◌};

/// The square tiles of a raster, numbered from 0, row by row. The last tile of a row or a column may be
/// smaller.
#[derive(Clone, Copy)]
pub struct Tiling {
    /// Pixels in a row of the raster.
    pub width: u32,
    /// Rows of the raster.
    pub height: u32,
    /// Pixels along a side of a tile.
    pub side: u32,
    pub ghost wide: { (1 ≤ width) × (width ≤ max_tiled_side) },
    pub ghost high: { (1 ≤ height) × (height ≤ max_tiled_side) },
    pub ghost few: { width * height ≤ max_tiled_pixels },
    pub ghost sides: { IsTileSide side },
}

/// A box of pixels, both corners included.
#[derive(Clone, Copy, Debug, PartialEq, Eq)]
pub struct Window {
    pub x0: u32,
    pub y0: u32,
    pub x1: u32,
    pub y1: u32,
}

impl Window {
    ghost use Rattle.raster_model.specs.Tiles.{IsWithin, height_of, place_in, width_of};
    ghost use Rattle.std.specs.Prelude.{◌<◌};

    /// Pixels in a row.
    pub fn width(&self) -> u32
        requires { (self.now.x0 ≤ self.now.x1) × (self.now.x1 < max_side) }
        ensures { result ≡ width_of self.now }
    {
        self.x1 - self.x0 + 1
    }

    /// Rows.
    pub fn height(&self) -> u32
        requires { (self.now.y0 ≤ self.now.y1) × (self.now.y1 < max_side) }
        ensures { result ≡ height_of self.now }
    {
        self.y1 - self.y0 + 1
    }

    /// The place of a pixel in a list with one element for each pixel of the window, in row order.
    pub fn place(&self, x: u32, y: u32) -> usize
        requires across { (self.now.x0 ≤ self.now.x1) × (self.now.x1 < max_side) }
        requires along { (self.now.y0 ≤ self.now.y1) × (self.now.y1 < max_side) }
        requires pixel { IsWithin self.now x y }
        ensures { result ≡ place_in self.now x y }
    {
        (y - self.y0) as usize * self.width() as usize + (x - self.x0) as usize
    }
}

impl Tiling {
    ghost use Rattle.raster_model.specs.Limits.{is_tiled_size};
    ghost use Rattle.raster_model.specs.Tiles.{columns_of_tiles, rows_of_tiles, tiles_of, tile_at, window_of, IsWindowOf};
    ghost use Rattle.std.specs.Prelude.{◌<◌, ◌+◌, IsTrue};

    /// The tiles of this side in a raster of this size.
    pub fn new(width: u32, height: u32, side: u32) -> Tiling
        requires size { IsTrue (is_tiled_size width height) }
        requires sides { IsTileSide side }
        ensures { (result.width ≡ width) × (result.height ≡ height) × (result.side ≡ side) }
    {
        Tiling {
            width,
            height,
            side,
        }
    }

    /// How many tiles there are.
    pub fn tile_count(&self) -> u32
        ensures count { result ≡ tiles_of self.now }
        ensures few { result ≤ max_tiled_pixels }
    {
        self.rows() * self.columns()
    }

    /// The tile of a pixel.
    pub fn tile_of(&self, x: u32, y: u32) -> u32
        requires across { x < self.now.width }
        requires along { y < self.now.height }
        ensures value { result ≡ tile_at self.now x y }
        ensures exists { result < tiles_of self.now }
    {
        y / self.side * self.columns() + x / self.side
    }

    /// The pixels of a tile.
    pub fn window(&self, tile: u32) -> Window
        requires { tile < tiles_of self.now }
        ensures value { result ≡ window_of self.now tile }
        ensures pixels { IsWindowOf self.now tile result }
        ensures small { (result.x1 < result.x0 + self.now.side) × (result.y1 < result.y0 + self.now.side) }
    {
        let columns = self.columns();
        let x0 = tile % columns * self.side;
        let y0 = tile / columns * self.side;
        Window {
            x0,
            y0,
            x1: (x0 + self.side).min(self.width) - 1,
            y1: (y0 + self.side).min(self.height) - 1,
        }
    }

    /// How many tiles lie side by side.
    fn columns(&self) -> u32
        ensures { result ≡ columns_of_tiles self.now }
    {
        (self.width + self.side - 1) / self.side
    }

    /// How many tiles lie one below another.
    fn rows(&self) -> u32
        ensures { result ≡ rows_of_tiles self.now }
    {
        (self.height + self.side - 1) / self.side
    }
}
