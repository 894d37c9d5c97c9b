ghost use Rattle.insar_words.specs.Limits.{IsNearCount, IsPatchSize, IsScreenRadius};
ghost use Rattle.raster_model.specs.Limits.{IsTileSide};

/// Which pixels `screen` keeps open.
#[derive(Clone, Copy)]
pub struct Screening {
    /// The least weight of a strong pixel.
    pub weight: u16,
    /// How many columns and rows a near pixel may be away.
    pub radius: u32,
    /// The least number of near strong pixels.
    pub count: u32,
    /// The least number of pixels of a patch.
    pub patch: u32,
    /// Pixels along a side of a tile, by which the limit of a session's edits is judged.
    pub side: u32,
    pub ghost radii: { IsScreenRadius radius },
    pub ghost counts: { IsNearCount count },
    pub ghost patches: { IsPatchSize patch },
    pub ghost sides: { IsTileSide side },
}
