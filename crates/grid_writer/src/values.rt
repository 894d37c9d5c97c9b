ghost use Rattle.raster_model.specs.Limits.{is_tiled_size};
ghost use Rattle.std.specs.Prelude.{◌≡◌, ◌*◌, IsTrue, vec_len};

/// The NODATA value of each grid: what stands at a pixel that has no value, as a masked one.
pub const NO_DATA: i64 = i64::MIN;

/// A grid that was read: its size, and a value for each pixel, in units of 1/65536 cycle.
#[derive(Drop)]
pub struct Grid {
    /// Pixels in a row.
    pub width: u32,
    /// Rows.
    pub height: u32,
    /// One for each pixel, in row order; [`NO_DATA`] at a pixel that has no value.
    pub values: Vec<i64>,
    pub ghost sized: { IsTrue (is_tiled_size width height) },
    pub ghost full: { vec_len values ≡ width * height },
}
