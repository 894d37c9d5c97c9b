ghost use Rattle.insar_words.specs.Limits.{IsBlockAsked, IsReferencePlace, IsWavelengthAsked};

/// How `displacement` turns a surface into nanometres.
#[derive(Clone, Copy)]
pub struct Displacing {
    /// The radar's wavelength, in nanometres.
    pub wavelength: u32,
    /// The column of the reference pixel.
    pub x: u32,
    /// The row of the reference pixel.
    pub y: u32,
    /// The side of a block, in pixels.
    pub block: u32,
    pub ghost wave: { IsWavelengthAsked wavelength },
    pub ghost column: { IsReferencePlace x },
    pub ghost row: { IsReferencePlace y },
    pub ghost blocks: { IsBlockAsked block },
}
