use raster_model::Edge;

/// What a check says of a tile. If it has several breaks, the first variant is returned.
#[derive(Clone, Copy, Debug, PartialEq, Eq)]
pub enum TileVerdict {
    /// The faces certify the surface: no congruent surface costs less in the tile.
    Good,
    /// There are not as many cycles as pixels, or not as many faces as cells.
    Shape,
    /// The first open pixel, in row order, whose cycles are below -8,388,608 or above 8,388,608.
    Range { x: u32, y: u32 },
    /// The first inner edge, in edge order and masked ends included, whose faces differ by more than the steepness times
    /// its weight.
    FaceAtEdge(Edge),
    /// The tile's cost, which is `cost`, is not `bound`: the sum of face times residue, minus the amounts by which faces
    /// differ by more than the weights.
    CostDiffers { cost: u128, bound: i128 },
}

/// What a check says of the seams of a surface. If they have several breaks, the first variant is returned.
#[derive(Clone, Copy, Debug, PartialEq, Eq)]
pub enum SeamVerdict {
    /// The surface meets its anchor, and the flows certify it: no whole-cycle offsets of its regions make the
    /// seams cost less.
    Good,
    /// There are not as many flows as seam edges, or not as many offsets as regions. `check_flows` judges only the
    /// flows.
    Shape,
    /// The lowest-numbered region whose offset is out of range. `check_flows` never answers this; it is for callers
    /// that judge offsets.
    Range(u32),
    /// The cycles above the phase at the first open pixel, which are not 0.
    Anchor(i64),
    /// The first seam edge, in edge order and masked ends included, whose flow is greater than the steepness times its
    /// weight.
    FlowAtEdge(Edge),
    /// The lowest-numbered region that is out of balance: what flows into it is not what flows out of it.
    Unbalanced(u32),
    /// The cost of the seams, which is `cost`, is not `bound`: the sum of flow times departure, minus the amounts by which
    /// flows are greater than the weights.
    CostDiffers { cost: u128, bound: i128 },
}
