/// The farthest from 0 that a potential or a face may lie of those from which a network is gone on.
pub const MAX_REACHED_POTENTIAL: u64 = 1 << 30;

/// The greatest absolute excess that a node has once flows have moved.
pub(crate) const MAX_MOVED_EXCESS: u64 = 1 << 60;

/// The greatest absolute correction that a list holds.
pub(crate) const MAX_HELD_CORRECTION: u64 = 1 << 31;

/// The greatest absolute residue that a list holds, in cycles.
pub(crate) const MAX_HELD_RESIDUE: u64 = 1 << 7;
