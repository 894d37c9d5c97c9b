/// The longest wavelength, in nanometres.
pub const MAX_WAVELENGTH: u32 = 1_000_000_000;

/// The longest side of a block, in pixels.
pub const MAX_BLOCK: u32 = 64;

/// The most pixels of a block.
pub(crate) const MAX_BLOCK_PIXELS: u32 = MAX_BLOCK * MAX_BLOCK;

/// How a surface is turned into displacements.
#[derive(Clone, Copy, Debug, PartialEq, Eq)]
pub struct Sight {
    /// The radar's wavelength, in nanometres.
    pub wavelength: u32,
    /// The column of the reference pixel.
    pub x: u32,
    /// The row of the reference pixel.
    pub y: u32,
    /// The side of a block, in pixels.
    pub block: u32,
}
