ghost use Rattle.insar_words.specs.Limits.{IsTrialSide};
ghost use Rattle.raster_model.specs.Limits.{max_tiled_pixels};
ghost use Rattle.std.specs.Prelude.{◌*◌, ◌≤◌};

use crate::settings::Settings;

/// A test session, and what options set.
#[derive(Clone, Copy)]
pub struct Trial {
    /// The number that the session is made from.
    pub seed: u64,
    /// Pixels in a row of the raster.
    pub width: u32,
    /// Rows of pixels.
    pub height: u32,
    /// What options set.
    pub settings: Settings,
    pub ghost across: { IsTrialSide width },
    pub ghost along: { IsTrialSide height },
    pub ghost few: { width * height ≤ max_tiled_pixels },
}
