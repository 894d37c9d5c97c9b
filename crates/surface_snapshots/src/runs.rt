ghost use Rattle.std.specs.Prelude.{◌<◌, ◌^◌};

use std::alloc::Global;
use std::sync::Arc;

/// Pixels of a tile that follow one another in row order and have one label.
#[derive(Clone, Copy, PartialEq, Eq)]
pub(crate) struct Run {
    /// The place after the last of them.
    pub(crate) end: u32,
    /// The label's number among those of the tile, from 0.
    pub(crate) number: u32,
}

/// The labels of a tile's pixels.
#[derive(Drop)]
pub(crate) struct TileRuns {
    /// Where the tile's labels begin in the list of those of all tiles.
    pub(crate) first: usize,
    /// The runs, which surfaces share.
    pub(crate) runs: Arc<Vec<Run>>,
    pub(crate) ghost few: { first < 2 ^ 63 },
}
