ghost use Rattle.insar_words.specs.Limits.{IsWorkers};
ghost use Rattle.raster_model.specs.Limits.{IsTileSide};
ghost use Rattle.std.specs.Prelude.{◌≡◌, ◌*◌, ◌≤◌};

use raster_model::{RuleKind, Terms};

/// What the options of a run set.
#[derive(Clone, Copy)]
pub struct Settings {
    /// How the weights of two pixels give that of their edge.
    pub rule: RuleKind,
    /// Pixels along a side of a tile.
    pub side: u32,
    /// On which terms the phase is unwrapped: the ramp that is expected, and the steepness of costs.
    pub terms: Terms,
    /// How many workers there are.
    pub workers: u32,
    pub ghost sides: { IsTileSide side },
    pub ghost crew: { IsWorkers workers },
}
