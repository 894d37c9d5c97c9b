ghost use Rattle.raster_model.specs.Limits.{max_pixels, max_side};
ghost use Rattle.std.specs.Prelude.{◌*◌, ◌≤◌};

/// The size of a raster, in pixels.
#[derive(Clone, Copy)]
pub struct Extent {
    pub width: u32,
    pub height: u32,
    pub ghost wide: { (1 ≤ width) × (width ≤ max_side) },
    pub ghost high: { (1 ≤ height) × (height ≤ max_side) },
    pub ghost few: { width * height ≤ max_pixels },
}
