ghost use Rattle.raster_model.specs.Limits.{IsTileSide, max_tiled_side};
ghost use Rattle.raster_model.specs.declared.limits.TheConstants.{MAX_TILED_SIDE};
ghost use Rattle.certificates.specs.Ends.{PassNoEnd, TellsEnds, passes_end};
ghost use Rattle.std.specs.Prelude.{◌≡◌, ◌<◌, ◌≤◌};

use raster_model::{Edge, MAX_TILED_SIDE, Tiling};

/// The most columns or rows that a raster has.
const MOST: usize = MAX_TILED_SIDE as usize;

/// Where tiles end: for each column or row, whether it is the last of its tiles. The table is made once, and spares a
/// division at each edge.
#[derive(Drop)]
pub struct TileEnds {
    pub side: u32,
    last: [bool; MOST],
    ghost sides: { IsTileSide side },
    ghost told: { TellsEnds side MAX_TILED_SIDE last },
}

impl TileEnds {
    /// Where the tiles of a tiling end.
    pub fn of(tiling: &Tiling) -> TileEnds
        ensures { result.side ≡ tiling.now.side }
    {
        let side = tiling.side;
        let mut last = [false; MOST];
        for place in 0..MOST {
            last[place] = (place as u32 + 1) % side == 0;
        }
        TileEnds { side, last }
    }

    /// Whether the other end of an edge is the first pixel of its tile in the edge's direction.
    pub(crate) fn are_passed(&self, edge: Edge) -> bool
        requires { (edge.x < max_tiled_side) × (edge.y < max_tiled_side) }
        ensures { result ≡ passes_end self.now.side edge }
    {
        let place = if edge.down { edge.y } else { edge.x };
        self.last[place as usize]
    }
    /// The first column, from `x` on, at which an edge of row `y` may lead beyond the end of a tile: `x` itself if the
    /// row is the last of its tiles, and otherwise the last column of the tile of `x`.
    pub(crate) fn next_end(&self, x: u32, y: u32) -> u32
        requires { (x ≤ max_tiled_side) × (y < max_tiled_side) }
        ensures from { x ≤ result }
        ensures passed { PassNoEnd self.now.side x result y }
    {
        if self.last[y as usize] {
            x
        } else {
            x - x % self.side + (self.side - 1)
        }
    }
}
