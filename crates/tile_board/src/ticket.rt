ghost use Rattle.certificates.specs.Results.{pixels_in};
ghost use Rattle.raster_model.specs.Tiles.{tiles_of, window_of};
ghost use Rattle.std.specs.Arc.{arc_value};
ghost use Rattle.std.specs.Prelude.{◌≡◌, ◌<◌, length};

use raster_model::Session;
use std::sync::Arc;

/// A tile to solve, with all that its solver reads.
#[derive(Drop)]
pub struct Ticket {
    pub session: Arc<Session>,
    /// The tile's number.
    pub tile: u32,
    /// The revision at which the tile's mask changed last, or 0 if it never did.
    pub stamp: u32,
    /// For each pixel of the tile's window, in row order, whether it is open.
    pub unmasked: Vec<bool>,
    pub ghost exists: { tile < tiles_of (arc_value session).scene.tiling },
    pub ghost size: { length unmasked.items ≡ pixels_in (window_of (arc_value session).scene.tiling tile) },
}
