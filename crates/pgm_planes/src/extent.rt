ghost use Rattle.pgm_planes.specs.Reading.{is_too_large};
ghost use Rattle.std.specs.Prelude.{◌≡◌, not};

use raster_model::{is_raster_size, is_tiled_size};

/// How large a raster may be whose planes are read.
#[derive(Clone, Copy, Debug, PartialEq, Eq)]
pub enum Extent {
    /// It may have tiles: sides up to `MAX_TILED_SIDE`, and `MAX_TILED_PIXELS` pixels at most.
    Tiled,
    /// It is unwrapped as a whole: sides up to `MAX_SIDE`, and `MAX_PIXELS` pixels at most.
    Whole,
}

impl Extent {
    /// Whether a raster of this width and height is within it.
    pub(crate) fn has(self, width: u32, height: u32) -> bool
        ensures { result ≡ not (is_too_large self width height) }
    {
        match self {
            Extent::Tiled => is_tiled_size(width, height),
            Extent::Whole => is_raster_size(width, height),
        }
    }
}
