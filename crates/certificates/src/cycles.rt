ghost use Rattle.raster_model.specs.Limits.{max_tiled_side};
ghost use Rattle.certificates.specs.Growth.{AreAllInRange};
ghost use Rattle.certificates.specs.Results.{listed_cycles, pixels_in};
ghost use Rattle.std.specs.Prelude.{◌≡◌, ◌≤◌, ◌<◌, ◌&&◌, IsTrue, length, nat_le};

use raster_model::{Heights, MAX_TILE_CYCLES, Mask, Window};

/// The cycles of a solved tile at the pixels of its window.
#[derive(Clone, Copy)]
pub(crate) struct TileCycles<'a> {
    pub(crate) window: Window,
    pub(crate) cycles: &'a [i32],
    pub(crate) ghost across: { (window.x0 ≤ window.x1) × (window.x1 < max_tiled_side) },
    pub(crate) ghost along: { (window.y0 ≤ window.y1) × (window.y1 < max_tiled_side) },
    pub(crate) ghost count: { length cycles.now ≡ pixels_in window },
}

impl Heights for TileCycles<'_> {
    ghost knows = { λ s x y. nat_le s.window.x0 x && nat_le x s.window.x1 && nat_le s.window.y0 y && nat_le y s.window.y1 };

    ghost cycles_at = { λ s x y. listed_cycles s.window s.cycles.now x y };

    fn cycles(&self, x: u32, y: u32) -> i64 {
        i64::from(self.at(x, y))
    }
}

impl TileCycles<'_> {
    ghost use Rattle.certificates.specs.Results.{AreInRange, IsFirstOutside};
    ghost use Rattle.raster_model.specs.Masks.{open_at};
    ghost use Rattle.raster_model.specs.Tiles.{IsWithin};
    ghost use Rattle.std.specs.Prelude.{IfNone, IfSome};

    /// The cycles at a pixel of the window.
    fn at(&self, x: u32, y: u32) -> i32
        requires { IsWithin self.now.window x y }
        ensures { result ≡ listed_cycles self.now.window self.now.cycles.now x y }
    {
        let row = (y - self.window.y0) as usize * self.window.width() as usize;
        self.cycles[row + x as usize - self.window.x0 as usize]
    }

    /// The first open pixel, in row order, whose cycles are out of range.
    pub(crate) fn first_outside(&self, mask: &Mask) -> Option<(u32, u32)>
        requires inside { (self.now.window.x1 < mask.now.width) × (self.now.window.y1 < mask.now.height) }
        ensures found { IfSome result (λ pixel. IsFirstOutside self.now.window (open_at mask.now) self.now.cycles.now pixel.0 pixel.1) }
        ensures none { IfNone result (AreInRange self.now.window (open_at mask.now) self.now.cycles.now) }
    {
        if are_in_range(self.cycles) {
            return None;
        }
        let window = self.window;
        for y in window.y0..window.y1 + 1 {
            for x in window.x0..window.x1 + 1 {
                if mask.is_open(x, y) && self.at(x, y).unsigned_abs() > MAX_TILE_CYCLES {
                    return Some((x, y));
                }
            }
        }
        None
    }
}

/// Whether all cycles are in range, those of masked pixels included. The loop does not stop at the first that is not,
/// so that several can be judged at once.
fn are_in_range(cycles: &[i32]) -> bool
    ensures { IsTrue result → AreAllInRange cycles.now }
{
    let mut outside = false;
    for place in 0..cycles.len() {
        outside |= cycles[place].unsigned_abs() > MAX_TILE_CYCLES;
    }
    !outside
}
