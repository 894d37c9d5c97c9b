ghost use Rattle.certificates.specs.SeamVerdicts.{IsOffAnchor};
ghost use Rattle.raster_model.specs.Heights.{KnowsOpen};
ghost use Rattle.raster_model.specs.Masks.{open_at};
ghost use Rattle.raster_model.specs.Raster.{lifted};
ghost use Rattle.raster_model.specs.Scene.{raster_of};
ghost use Rattle.raster_model.specs.Seams.{IsAnchored, IsOpenPixel, IsFirstOpen};
ghost use Rattle.std.specs.Prelude.{◌≡◌, ℕ, IfNone, IfSome};

use raster_model::{Heights, Mask, Scene, first_open};

/// The cycles at the first open pixel in row order, if they are not 0.
pub(crate) fn off_anchor<H: Heights>(scene: &Scene, mask: &Mask, heights: &H) -> Option<i64>
    requires same_size { (mask.now.width ≡ scene.now.phase.width) × (mask.now.height ≡ scene.now.phase.height) }
    requires known { KnowsOpen (raster_of scene.now) (open_at mask.now) (H.knows heights.now) }
    ensures found { IfSome result (IsOffAnchor (raster_of scene.now) (open_at mask.now) (H.cycles_at heights.now)) }
    ensures none { IfNone result (IsAnchored (raster_of scene.now) (open_at mask.now) (lifted (raster_of scene.now) (H.cycles_at heights.now))) }
{
    let (x, y) = first_open(scene, mask)?;
    let cycles = heights.cycles(x, y);
    if cycles == 0 { None } else { Some(cycles) }
}
