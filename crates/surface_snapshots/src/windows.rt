ghost use Rattle.raster_model.specs.Tiles.{tile_at, window_of};
ghost use Rattle.std.specs.Prelude.{◌≡◌, ◌<◌};

use raster_model::{Tiling, Window};

/// The window of a pixel's tile, by the pixel's own place: `Tiling::window` would divide the tile's number anew.
pub(crate) fn window_at(tiling: &Tiling, x: u32, y: u32) -> Window
    requires across { x < tiling.now.width }
    requires along { y < tiling.now.height }
    ensures { result ≡ window_of tiling.now (tile_at tiling.now x y) }
{
    let side = tiling.side;
    let x0 = x / side * side;
    let y0 = y / side * side;
    Window {
        x0,
        y0,
        x1: (x0 + side).min(tiling.width) - 1,
        y1: (y0 + side).min(tiling.height) - 1,
    }
}
