use raster_model::Tiling;

/// Into which tiles a raster is cut.
#[derive(Clone, Copy)]
pub(crate) enum Cut {
    /// Those of a tiling.
    Tiles(Tiling),
    /// One, the whole raster.
    Whole,
}
