ghost use Rattle.certificates.specs.Starts.{HasNoSeams};
ghost use Rattle.raster_model.specs.Flows.{is_seam_edge as is_seam_edge_of, seam_count as seam_count_of, seams_from as seams_from_of};
ghost use Rattle.raster_model.specs.Raster.{is_seam};
ghost use Rattle.raster_model.specs.Scene.{raster_of};
ghost use Rattle.raster_model.specs.Sums.{is_edge};
ghost use Rattle.std.specs.Prelude.{◌≡◌, ◌<◌, ◌≤◌, IsTrue};

use crate::tile_ends::TileEnds;
use raster_model::{Edge, Scene};

/// Whether an edge leads from one tile to another.
fn leaves_tile(scene: &Scene, ends: &TileEnds, edge: Edge) -> bool
    requires side { ends.now.side ≡ scene.now.tiling.side }
    requires is_edge { IsTrue (is_edge scene.now.phase.width scene.now.phase.height edge) }
    ensures { result ≡ is_seam (raster_of scene.now) edge }
{
    ends.are_passed(edge)
}

/// Whether an edge that starts at a pixel of the raster is a seam edge: it leads to a pixel of another tile. The answer
/// is false if its other end lies beyond the raster.
pub fn is_seam_edge(scene: &Scene, ends: &TileEnds, edge: Edge) -> bool
    requires side { ends.now.side ≡ scene.now.tiling.side }
    requires start { (edge.x < scene.now.phase.width) × (edge.y < scene.now.phase.height) }
    ensures { result ≡ is_seam_edge_of (raster_of scene.now) edge }
{
    edge.end_x() < scene.phase.width
        && edge.end_y() < scene.phase.height
        && leaves_tile(scene, ends, edge)
}

/// The first column of row `y`, from `x` on, at which a seam edge may start, or the width if there is none. No seam
/// edge starts at a column that is passed over.
pub fn next_start(scene: &Scene, ends: &TileEnds, x: u32, y: u32) -> u32
    requires side { ends.now.side ≡ scene.now.tiling.side }
    requires place { (x ≤ scene.now.phase.width) × (y < scene.now.phase.height) }
    ensures place { (x ≤ result) × (result ≤ scene.now.phase.width) }
    ensures passed { HasNoSeams (raster_of scene.now) x result y }
{
    ends.next_end(x, y).min(scene.phase.width)
}

/// How many seam edges start at a pixel, masked ends included.
pub(crate) fn seams_from(scene: &Scene, ends: &TileEnds, x: u32, y: u32) -> usize
    requires side { ends.now.side ≡ scene.now.tiling.side }
    requires pixel { (x < scene.now.phase.width) × (y < scene.now.phase.height) }
    ensures value { result ≡ seams_from_of (raster_of scene.now) x y }
    ensures few { result ≤ 2 }
{
    usize::from(is_seam_edge(scene, ends, Edge { x, y, down: false }))
        + usize::from(is_seam_edge(scene, ends, Edge { x, y, down: true }))
}

/// How many seam edges a scene has, masked ends included.
pub fn seam_count(scene: &Scene, ends: &TileEnds) -> usize
    requires side { ends.now.side ≡ scene.now.tiling.side }
    ensures { result ≡ seam_count_of (raster_of scene.now) }
{
    let mut count = 0;
    for y in 0..scene.phase.height {
        let mut x = next_start(scene, ends, 0, y);
        while x < scene.phase.width {
            count += seams_from(scene, ends, x, y);
            x = next_start(scene, ends, x + 1, y);
        }
    }
    count
}
