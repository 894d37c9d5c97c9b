ghost use Rattle.raster_model.specs.Limits.{IsTileSide};
ghost use Rattle.std.specs.Prelude.{◌≡◌};

use raster_model::{RuleKind, Terms};

/// How a scene is made of its planes.
#[derive(Clone, Copy)]
pub struct SceneSettings {
    /// Pixels along a side of a tile.
    pub side: u32,
    /// How the weights of two pixels give that of their edge.
    pub rule: RuleKind,
    /// On which terms the phase is unwrapped.
    pub terms: Terms,
    pub ghost sides: { IsTileSide side },
}

impl SceneSettings {
    ghost use Rattle.raster_model.specs.Terms.{ArePlainTerms};

    /// Tiles of this side and this rule, on the plain terms.
    pub fn plain(side: u32, rule: RuleKind) -> SceneSettings
        requires { IsTileSide side }
        ensures side { result.side ≡ side }
        ensures rule { result.rule ≡ rule }
        ensures terms { ArePlainTerms result.terms }
    {
        SceneSettings {
            side,
            rule,
            terms: Terms::plain(),
        }
    }
}
