ghost use Rattle.raster_model.specs.Scripts.{ScriptsFit};
ghost use Rattle.raster_model.specs.Weights.{AreRuleWeights};
ghost use Rattle.std.specs.Prelude.{◌≡◌};

use raster_model::{EdgeWeights, Mask, Plane, RuleKind, Script, Sheet, Terms};

/// What is unwrapped as a whole: a scene without tiles, which may be as large as planes may be. All of it has one size.
#[derive(Drop)]
pub struct WholeScene {
    /// The wrapped phase, in units of 1/65536 cycle.
    pub phase: Plane,
    /// The weights of the pixels.
    pub weights: Plane,
    /// How the pixels' weights give those of the edges.
    pub rule: RuleKind,
    /// The weights of the edges by that rule.
    pub edges: EdgeWeights,
    /// The ramp that is expected of the phase, and the steepness of costs.
    pub terms: Terms,
    pub ghost cycle: { phase.maxval ≡ 65535 },
    pub ghost same_width: { weights.width ≡ phase.width },
    pub ghost same_height: { weights.height ≡ phase.height },
    pub ghost weighed: { AreRuleWeights rule weights edges },
}

impl WholeScene {
    ghost use Rattle.edge_weights.specs.Wholes.{IsSheetOfWhole};

    /// The scene as it is borrowed.
    pub fn sheet(&self) -> Sheet<'_>
        ensures { IsSheetOfWhole self.now result }
    {
        Sheet {
            phase: &self.phase,
            weights: &self.weights,
            rule: self.rule,
            edges: &self.edges,
            terms: self.terms,
        }
    }
}

/// A session without tiles: what is unwrapped, the mask that it starts from, and the scripts that stand behind its planes,
/// which are not run. A rectangle of a script lies in the raster.
#[derive(Drop)]
pub struct WholeSession {
    pub scene: WholeScene,
    pub first_mask: Mask,
    /// One for each analyst.
    pub scripts: Vec<Script>,
    pub ghost same_size: { (first_mask.width ≡ scene.phase.width) × (first_mask.height ≡ scene.phase.height) },
    pub ghost inside: { ScriptsFit scene.phase.width scene.phase.height scripts.items },
}

/// What a session without tiles is put together of: planes of one size, and scripts whose rectangles lie in the raster.
#[derive(Drop)]
pub struct WholeParts {
    /// The wrapped phase, in units of 1/65536 cycle.
    pub phase: Plane,
    /// The weights of the pixels.
    pub weights: Plane,
    /// 0 at masked pixels.
    pub mask: Plane,
    /// One for each analyst.
    pub scripts: Vec<Script>,
    pub ghost cycle: { phase.maxval ≡ 65535 },
    pub ghost same_width: { (weights.width ≡ phase.width) × (mask.width ≡ phase.width) },
    pub ghost same_height: { (weights.height ≡ phase.height) × (mask.height ≡ phase.height) },
    pub ghost inside: { ScriptsFit phase.width phase.height scripts.items },
}

impl WholeParts {
    ghost use Rattle.edge_weights.specs.Wholes.{IsWholeOf};
    ghost use Rattle.raster_model.specs.Masks.{IsMaskOf, open_by};

    /// The session of these parts on terms, with the weights of its edges by a rule and the mask of its mask plane.
    pub fn put_together(
        self,
        rule: RuleKind,
        terms: Terms,
        edges: EdgeWeights,
        first_mask: Mask,
    ) -> WholeSession
        requires edges { AreRuleWeights rule self.weights edges }
        requires mask { IsMaskOf first_mask self.mask.width self.mask.height (open_by self.mask) }
        ensures { IsWholeOf self rule terms first_mask result }
    {
        let WholeParts {
            phase,
            weights,
            mask: _,
            scripts,
        } = self;
        let scene = WholeScene {
            phase,
            weights,
            rule,
            edges,
            terms,
        };
        WholeSession {
            scene,
            first_mask,
            scripts,
        }
    }
}
