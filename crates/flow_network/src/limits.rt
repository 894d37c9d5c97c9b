/// The greatest absolute cost of an arc.
pub const MAX_ARC_COST: u64 = 1 << 40;

/// The most that the greatest cost of an arc times the number of nodes may be: no path costs more.
pub const MAX_PATH_COST: u64 = 1 << 60;

/// The greatest absolute potential of a node.
pub const MAX_POTENTIAL: u64 = 1 << 61;

/// Potentials below this on either side of 0 have differences of 64 bits.
pub const POTENTIAL_BOUND: u64 = 1 << 62;

/// The most that excesses and residual capacities may add up to.
pub const MAX_AMOUNT: u64 = 1 << 62;
