ghost use Rattle.raster_model.specs.Limits.{max_changed_tiles, max_settled_pixels};
ghost use Rattle.raster_model.specs.Scripts.{ScriptsAreShort, ScriptsFit, changes_in, settles_in};
ghost use Rattle.raster_model.specs.Tiles.{tiles_of};
ghost use Rattle.std.specs.Prelude.{◌≡◌, ◌*◌, ◌≤◌, vec_len};

use crate::settings::SceneSettings;
use raster_model::{EdgeWeights, Mask, Plane, Scene, Script, Session, Tiling};

/// What a session is put together of: planes of one size, tiles of that size, and scripts within the limits.
#[derive(Drop)]
pub struct SessionParts {
    /// The wrapped phase, in units of 1/65536 cycle.
    pub phase: Plane,
    /// The weights of the pixels.
    pub weights: Plane,
    /// 0 at masked pixels.
    pub mask: Plane,
    /// The tiles.
    pub tiling: Tiling,
    /// One for each analyst.
    pub scripts: Vec<Script>,
    pub ghost cycle: { phase.maxval ≡ 65535 },
    pub ghost same_width: { (weights.width ≡ phase.width) × ((mask.width ≡ phase.width) × (tiling.width ≡ phase.width)) },
    pub ghost same_height: { (weights.height ≡ phase.height) × ((mask.height ≡ phase.height) × (tiling.height ≡ phase.height)) },
    pub ghost analysts: { (1 ≤ vec_len scripts) × (vec_len scripts ≤ 8) },
    pub ghost short: { ScriptsAreShort scripts.items },
    pub ghost settles: { settles_in scripts.items * (phase.width * phase.height) ≤ max_settled_pixels },
    pub ghost changes: { changes_in scripts.items * tiles_of tiling ≤ max_changed_tiles },
    pub ghost inside: { ScriptsFit phase.width phase.height scripts.items },
}

impl SessionParts {
    ghost use Rattle.edge_weights.specs.Sessions.{IsPutTogether};
    ghost use Rattle.raster_model.specs.Masks.{IsMaskOf, open_by};
    ghost use Rattle.raster_model.specs.Weights.{AreRuleWeights};

    /// The session of these parts on settings, with the weights of its edges by the rule and the mask of its mask plane.
    pub fn put_together(
        self,
        settings: SceneSettings,
        edges: EdgeWeights,
        first_mask: Mask,
    ) -> Session
        requires edges { AreRuleWeights settings.rule self.weights edges }
        requires mask { IsMaskOf first_mask self.mask.width self.mask.height (open_by self.mask) }
        ensures { IsPutTogether self settings first_mask result }
    {
        let SessionParts {
            phase,
            weights,
            mask: _,
            tiling,
            scripts,
        } = self;
        let scene = Scene {
            phase,
            weights,
            rule: settings.rule,
            edges,
            tiling,
            terms: settings.terms,
        };
        Session {
            scene,
            first_mask,
            scripts,
        }
    }
}
