ghost use Rattle.raster_model.specs.Masks.{open_at};
ghost use Rattle.raster_model.specs.Raster.{departure as departure_of, lifted, masked_weight, turns_of};
ghost use Rattle.raster_model.specs.Scene.{raster_of};
ghost use Rattle.raster_model.specs.Seams.{IsFirstOpen, IsOpenPixel};
ghost use Rattle.raster_model.specs.Sums.{at_edge_end, at_edge_start, is_edge};
ghost use Rattle.raster_model.specs.Weights.{edge_weight};
ghost use Rattle.std.specs.Prelude.{◌≡◌, ◌+◌, ◌≤◌, ◌^◌, ℕ, IfNone, IfSome, IsTrue, unsigned_abs};

use crate::edge::Edge;
use crate::heights::Heights;
use crate::limits::MAX_DEPARTURE;
use crate::mask::Mask;
use crate::scene::Scene;

/// The weight of an edge under a mask: 0 if an end is masked.
pub fn weight(scene: &Scene, mask: &Mask, edge: Edge) -> u16
    requires same_size { (mask.now.width ≡ scene.now.phase.width) × (mask.now.height ≡ scene.now.phase.height) }
    requires is_edge { IsTrue (is_edge scene.now.phase.width scene.now.phase.height edge) }
    ensures { result ≡ masked_weight (raster_of scene.now) (open_at mask.now) edge }
{
    scene.sheet().weight(mask, edge)
}

/// The weight of an edge before any mask, as the scene holds it.
pub fn stored_weight(scene: &Scene, edge: Edge) -> u16
    requires { IsTrue (is_edge scene.now.phase.width scene.now.phase.height edge) }
    ensures { result ≡ edge_weight scene.now.rule scene.now.weights edge }
{
    scene.sheet().stored_weight(edge)
}

/// The whole cycles that the wrapped difference of an edge, around its slope, leaves out of the difference of the phases
/// at its ends: -1, 0 or 1.
pub fn turns(scene: &Scene, edge: Edge) -> i32
    requires { IsTrue (is_edge scene.now.phase.width scene.now.phase.height edge) }
    ensures value { result ≡ turns_of (raster_of scene.now) edge }
    ensures small { unsigned_abs result ≤ 1 }
{
    scene.sheet().turns(edge)
}

/// The whole cycles by which a surface departs from the wrapped difference of an edge, whose ends are open.
/// (Chen and Zebker 2002.)
pub fn departure<H: Heights>(scene: &Scene, heights: &H, edge: Edge) -> i64
    requires is_edge { IsTrue (is_edge scene.now.phase.width scene.now.phase.height edge) }
    requires start { IsTrue (at_edge_start (H.knows heights.now) edge) }
    requires end { IsTrue (at_edge_end (H.knows heights.now) edge) }
    ensures value { result ≡ departure_of (raster_of scene.now) (lifted (raster_of scene.now) (H.cycles_at heights.now)) edge }
    ensures small { unsigned_abs result ≤ MAX_DEPARTURE }
{
    scene.sheet().departure(heights, edge)
}

/// The first open pixel in row order.
pub fn first_open(scene: &Scene, mask: &Mask) -> Option<(u32, u32)>
    requires same_size { (mask.now.width ≡ scene.now.phase.width) × (mask.now.height ≡ scene.now.phase.height) }
    ensures found { IfSome result (λ pixel. IsFirstOpen (raster_of scene.now) (open_at mask.now) pixel.0 pixel.1) }
    ensures none { IfNone result ((x y : ℕ) → IsOpenPixel (raster_of scene.now) (open_at mask.now) x y → ⊥) }
{
    scene.sheet().first_open(mask)
}
