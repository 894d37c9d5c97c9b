/// No node, joint, arc or region.
pub const NONE: u32 = u32::MAX;

/// The node outside the raster.
pub(crate) const OUTSIDE: u32 = 0;

/// The number of the first node that is not the outside.
pub const FIRST_INSIDE: u32 = 1;

/// A place in a list as a number, or `NONE` if it is too large.
pub fn number(place: usize) -> u32 {
    u32::try_from(place).unwrap_or(NONE)
}
