ghost use Rattle.raster_model.specs.Masks.{open_at};
ghost use Rattle.std.specs.Arc.{arc_value};
ghost use Rattle.std.specs.Prelude.{◌≡◌};
ghost use Rattle.surface_snapshots.specs.Parts.{AreGoodTiles};

use certificates::TileSet;
use raster_model::{Mask, Session};
use std::sync::Arc;

/// What a revision's offsets are found from: its mask, and a result for each tile that is good under it.
#[derive(Drop)]
pub struct Gathered {
    pub session: Arc<Session>,
    pub revision: u32,
    pub mask: Mask,
    pub tiles: TileSet,
    pub ghost across: { mask.width ≡ (arc_value session).scene.phase.width },
    pub ghost along: { mask.height ≡ (arc_value session).scene.phase.height },
    pub ghost tiling: { tiles.tiling ≡ (arc_value session).scene.tiling },
    pub ghost good: { AreGoodTiles (arc_value session).scene (open_at mask) tiles.results },
}

/// A revision's mask.
#[derive(Drop)]
pub struct PresentMask {
    pub session: Arc<Session>,
    pub revision: u32,
    pub mask: Mask,
    pub ghost across: { mask.width ≡ (arc_value session).scene.phase.width },
    pub ghost along: { mask.height ≡ (arc_value session).scene.phase.height },
}
