ghost use Rattle.insar_words.specs.Limits.{IsLeastPart};

use crate::settings::Settings;

/// The parts of a whole surface that are asked for.
#[derive(Clone, Copy)]
pub struct Parting {
    /// What options set of the session. It has no workers, and its side of tiles is the default.
    pub settings: Settings,
    /// How much more than the surface another one may cost that has the same cycles in each part.
    pub margin: u32,
    /// The least number of pixels of a part.
    pub least: u32,
    pub ghost large: { IsLeastPart least },
}
