use raster_model::Edge;

/// What a check says of the text of a surface over the whole raster: that it is certified, or the first thing that is wrong
/// with it.
#[derive(Clone, Copy, Debug, PartialEq, Eq)]
pub enum WholeVerdict {
    /// The text is certified.
    Accepted,
    /// The line with this number, from 2 to 5, is not the size, the rule, the ramp or the steepness of what is unwrapped.
    Header(u32),
    /// The pixel is the first in row order whose value is not NODATA though it is masked, or is NODATA or not the phase up to
    /// whole cycles though it is open, or is not the phase though it is the first open pixel.
    Value { x: u32, y: u32 },
    /// The first edge, in edge order and masked ends included, whose faces differ by more than the steepness times its weight.
    Face(Edge),
    /// What the surface costs over all edges, which is `cost`, is not `bound`: the sum of face times residue, minus the
    /// amounts by which faces differ by more than the weights.
    Cost { cost: u128, bound: i128 },
    /// The written cost is not the counted one.
    Told { written: u128, counted: u128 },
}
