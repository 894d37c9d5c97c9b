/// How the weights at the two ends of an edge give the edge's weight. Numbers are rounded down.
#[derive(Clone, Copy, Debug, PartialEq, Eq)]
pub enum RuleKind {
    /// The smaller of the two.
    Least,
    /// Half their sum.
    Mean,
    /// Their product, divided by the weight plane's maxval.
    Product,
}

/// The weights of the edges of a raster before any mask, in row order of first pixels.
#[derive(Drop)]
pub struct EdgeWeights {
    /// Of the right edges: one less in a row than there are pixels.
    pub right: Vec<u16>,
    /// Of the down edges: in one row less than there are rows of pixels.
    pub down: Vec<u16>,
}
