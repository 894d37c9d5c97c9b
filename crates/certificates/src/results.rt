/// A solved tile.
#[derive(Drop)]
pub struct TileResult {
    /// The tile's number.
    pub tile: u32,
    /// The stamp of the tile's mask: the revision at which that mask changed last.
    pub stamp: u32,
    /// Whole cycles above the phase at the pixels of the tile's window, in row order.
    pub cycles: Vec<i32>,
    /// The faces of the tile's cells, in row order: the numbers that certify the cycles. (Costantini 1998.)
    pub faces: Vec<i64>,
}

/// Offsets of a revision's regions, with the flows that certify them.
#[derive(Drop)]
pub struct SeamResult {
    /// The revision of the mask.
    pub revision: u32,
    /// Whole cycles to add on each region, in the order of the regions' numbers.
    pub offsets: Vec<i64>,
    /// The flows of the seam edges, in edge order: the numbers that certify the offsets. (Chen and Zebker 2002.)
    pub flows: Vec<i64>,
}
