/// What a pixel needs to stay open: a weight, strong pixels near it, and pixels in its patch.
#[derive(Clone, Copy, Debug, PartialEq, Eq)]
pub struct ScreenTerms {
    /// The least weight of a strong pixel.
    pub weight: u16,
    /// How many columns and rows a near pixel may be away, from 0 to 64.
    pub radius: u32,
    /// The least number of near strong pixels, from 0 to 16641. The pixel itself is one of them.
    pub count: u32,
    /// The least number of pixels of a patch, from 0 to `MAX_PIXELS`.
    pub patch: u32,
}
