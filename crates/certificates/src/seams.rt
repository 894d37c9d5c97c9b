ghost use Rattle.certificates.specs.Growth.{AreZeros, IsFirstOther};
ghost use Rattle.certificates.specs.SeamVerdicts.{IsGoodAtSeams, IsSeamVerdict, ListsRegions, label_at};
ghost use Rattle.certificates.specs.declared.verdicts.SeamVerdict.TheVariants.{Good};
ghost use Rattle.raster_model.specs.Heights.{KnowsOpen};
ghost use Rattle.raster_model.specs.Masks.{open_at};
ghost use Rattle.raster_model.specs.Raster.{lifted};
ghost use Rattle.raster_model.specs.Scene.{raster_of};
ghost use Rattle.raster_model.specs.Seams.{IsLeastAtSeams};
ghost use Rattle.std.specs.Prelude.{◌≡◌, ◌↔◌, IfNone, IfSome, length};

use crate::anchor::off_anchor;
use crate::numbers::is_same;
use crate::seam_costs::seam_cost;
use crate::seam_edges::seam_count;
use crate::seam_flows::SeamFlows;
use crate::tile_ends::TileEnds;
use crate::verdicts::SeamVerdict;
use raster_model::{Heights, Mask, Scene};

/// Checks the flows that certify a surface at its seams: one for each seam edge, in edge order. It judges first their
/// number, then the surface's anchor, then each flow, then the balance at each region, then the cost. `labels` has a
/// number for each pixel in row order, which is its region's if the pixel is open. `scratch` has one place for each
/// region, and is written over. It takes no memory. (Chen and Zebker 2002.)
pub fn check_flows<H: Heights>(
    scene: &Scene,
    mask: &Mask,
    labels: &[u32],
    heights: &H,
    flows: &[i64],
    scratch: &mut [i64],
) -> SeamVerdict
    requires same_size { (mask.now.width ≡ scene.now.phase.width) × (mask.now.height ≡ scene.now.phase.height) }
    requires known { KnowsOpen (raster_of scene.now) (open_at mask.now) (H.knows heights.now) }
    requires regions { ListsRegions (raster_of scene.now) (open_at mask.now) labels.now (length scratch.old) }
    ensures verdict { IsSeamVerdict (raster_of scene.now) (open_at mask.now) (label_at scene.now.phase.width labels.now) (length scratch.old) (H.cycles_at heights.now) flows.now result }
    ensures good { (result ≡ Good) ↔ IsGoodAtSeams (raster_of scene.now) (open_at mask.now) (H.cycles_at heights.now) flows.now }
    ensures least { result ≡ Good → IsLeastAtSeams (raster_of scene.now) (open_at mask.now) (lifted (raster_of scene.now) (H.cycles_at heights.now)) }
{
    let ends = TileEnds::of(&scene.tiling);
    if flows.len() != seam_count(scene, &ends) {
        return SeamVerdict::Shape;
    }
    if let Some(cycles) = off_anchor(scene, mask, heights) {
        return SeamVerdict::Anchor(cycles);
    }
    let seams = SeamFlows {
        scene,
        ends: &ends,
        mask,
        flows,
    };
    if let Some(edge) = seams.first_heavy() {
        return SeamVerdict::FlowAtEdge(edge);
    }
    seams.add_up(labels, scratch);
    if let Some(region) = first_other(scratch) {
        return SeamVerdict::Unbalanced(region as u32);
    }
    let bound = seams.bound(heights);
    let cost = seam_cost(scene, &ends, mask, heights);
    if is_same(bound, cost) {
        SeamVerdict::Good
    } else {
        SeamVerdict::CostDiffers { cost, bound }
    }
}

/// The place of the first number that is not 0.
fn first_other(numbers: &[i64]) -> Option<usize>
    ensures found { IfSome result (IsFirstOther numbers.now) }
    ensures none { IfNone result (AreZeros numbers.now) }
{
    numbers.iter().position(|&number| number != 0)
}
