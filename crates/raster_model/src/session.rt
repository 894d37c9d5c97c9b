ghost use Rattle.raster_model.specs.Limits.{max_changed_tiles, max_settled_pixels};
ghost use Rattle.raster_model.specs.Scripts.{ScriptsAreShort, ScriptsFit, changes_in, settles_in};
ghost use Rattle.raster_model.specs.Tiles.{tiles_of};
ghost use Rattle.std.specs.Prelude.{◌≡◌, ◌*◌, ◌≤◌, vec_len};

use crate::mask::Mask;
use crate::scene::Scene;
use crate::script::Script;
use crate::terms::Terms;

/// What is worked on: a scene, the mask that the analysts start from, and a script for each of them.
#[derive(Drop)]
pub struct Session {
    pub scene: Scene,
    pub first_mask: Mask,
    /// One for each analyst.
    pub scripts: Vec<Script>,
    pub ghost same_size: { (first_mask.width ≡ scene.phase.width) × (first_mask.height ≡ scene.phase.height) },
    pub ghost analysts: { (1 ≤ vec_len scripts) × (vec_len scripts ≤ 8) },
    pub ghost short: { ScriptsAreShort scripts.items },
    pub ghost settles: { settles_in scripts.items * (scene.phase.width * scene.phase.height) ≤ max_settled_pixels },
    pub ghost changes: { changes_in scripts.items * tiles_of scene.tiling ≤ max_changed_tiles },
    pub ghost inside: { ScriptsFit scene.phase.width scene.phase.height scripts.items },
}

impl Session {
    ghost use Rattle.raster_model.specs.Sessions.{HasNewTerms};
    ghost use Rattle.std.specs.Prelude.{◌≡◌};

    /// The same session on other terms.
    pub fn with_terms(self, terms: Terms) -> Session
        ensures { HasNewTerms self terms result }
    {
        let Session {
            scene,
            first_mask,
            scripts,
        } = self;
        let Scene {
            phase,
            weights,
            rule,
            edges,
            tiling,
            ..
        } = scene;
        let scene = Scene {
            phase,
            weights,
            rule,
            edges,
            tiling,
            terms,
        };
        Session {
            scene,
            first_mask,
            scripts,
        }
    }
}
