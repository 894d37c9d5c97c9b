ghost use Rattle.raster_model.specs.Limits.{is_raster_size};
ghost use Rattle.std.specs.Prelude.{◌≡◌, ◌*◌, ◌-◌, ◌≤◌, IsTrue, vec_len};
ghost use Rattle.whole_text.specs.Text.{cell_rows};

use raster_model::{RuleKind, Terms};

/// A surface over the whole raster as its text tells it, with what certifies it.
#[derive(Drop)]
pub struct Whole {
    /// How the weights of two pixels give that of their edge.
    pub rule: RuleKind,
    /// On which terms the phase was unwrapped.
    pub terms: Terms,
    /// What the surface costs over all edges.
    pub cost: u128,
    /// Pixels in a row.
    pub width: u32,
    /// Rows.
    pub height: u32,
    /// A value for each pixel in row order, in units of 1/65536 cycle; the NODATA value at a masked one.
    pub values: Vec<i64>,
    /// One for each cell of the raster, in row order.
    pub faces: Vec<i64>,
    pub ghost sized: { IsTrue (is_raster_size width height) },
    pub ghost full: { vec_len values ≡ width * height },
    pub ghost count: { vec_len faces ≡ (width - 1) * (height - 1) },
}

/// How many rows of cells a raster of this size has.
pub(crate) fn cell_rows_of(width: u32, height: u32) -> u32
    requires { 1 ≤ height }
    ensures { result ≡ cell_rows width height }
{
    if width == 1 { 0 } else { height - 1 }
}
