ghost use Rattle.raster_model.specs.Limits.{max_tiled_pixels, max_tiled_side};
ghost use Rattle.raster_model.specs.Weights.{AreRuleWeights};
ghost use Rattle.std.specs.Prelude.{◌≡◌, ◌*◌, ◌≤◌};

use crate::plane::Plane;
use crate::sheet::Sheet;
use crate::terms::Terms;
use crate::tiling::Tiling;
use crate::weights::{EdgeWeights, RuleKind};

/// What stays the same while the mask changes. All of it has one size.
#[derive(Drop)]
pub struct Scene {
    /// The wrapped phase, in units of 1/65536 cycle.
    pub phase: Plane,
    /// The weights of the pixels.
    pub weights: Plane,
    /// How the pixels' weights give those of the edges.
    pub rule: RuleKind,
    /// The weights of the edges by that rule.
    pub edges: EdgeWeights,
    /// The tiles.
    pub tiling: Tiling,
    /// The ramp that is expected of the phase, and the steepness of costs.
    pub terms: Terms,
    pub ghost cycle: { phase.maxval ≡ 65535 },
    pub ghost same_width: { (weights.width ≡ phase.width) × (tiling.width ≡ phase.width) },
    pub ghost same_height: { (weights.height ≡ phase.height) × (tiling.height ≡ phase.height) },
    pub ghost weighed: { AreRuleWeights rule weights edges },
    pub ghost wide: { (1 ≤ phase.width) × (phase.width ≤ max_tiled_side) },
    pub ghost high: { (1 ≤ phase.height) × (phase.height ≤ max_tiled_side) },
    pub ghost few: { phase.width * phase.height ≤ max_tiled_pixels },
}

impl Scene {
    ghost use Rattle.raster_model.specs.Scene.{raster_of};
    ghost use Rattle.raster_model.specs.Sheets.{IsSheetOf, sheet_raster};
    ghost use Rattle.raster_model.specs.Whole.{whole_of};

    /// What the scene has beside its tiles.
    pub fn sheet(&self) -> Sheet<'_>
        ensures parts { IsSheetOf self.now result }
        ensures raster { sheet_raster result ≡ whole_of (raster_of self.now) }
    {
        Sheet {
            phase: &self.phase,
            weights: &self.weights,
            rule: self.rule,
            edges: &self.edges,
            terms: self.terms,
        }
    }
}
