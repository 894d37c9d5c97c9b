use certificates::{SeamVerdict, TileVerdict};

/// What a check says of a report: that it is certified for its session, or the first thing that is wrong with it.
#[derive(Clone, Copy, Debug, PartialEq, Eq)]
pub enum CheckVerdict {
    /// The report is certified.
    Accepted,
    /// The line of the report with this number, from 2 to 6, is not the session's size, tile side, rule, ramp or steepness;
    /// for a report of version 1 the plain terms stand for lines 5 and 6.
    Header(u32),
    /// The entry with this number, from 1, may not come after those before it; or all may, the history is not complete,
    /// and the number is one more than theirs.
    History(u64),
    /// The pixel is the first in row order whose value is not NODATA though it is masked, or is NODATA or not the phase
    /// up to whole cycles though it is open.
    Value {
        revision: u32,
        x: u32,
        y: u32,
    },
    /// The faces of a tile do not certify the surface there.
    Tile {
        revision: u32,
        tile: u32,
        verdict: TileVerdict,
    },
    /// The flows do not certify the surface at the seams.
    Seams {
        revision: u32,
        verdict: SeamVerdict,
    },
    /// The written cost of the tiles is not the counted one.
    TileCost {
        revision: u32,
        written: u128,
        counted: u128,
    },
    /// The written cost of the seams is not the counted one.
    SeamCost {
        revision: u32,
        written: u128,
        counted: u128,
    },
}
