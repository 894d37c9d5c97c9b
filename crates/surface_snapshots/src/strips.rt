ghost use Rattle.raster_model.specs.Limits.{max_tiled_side};
ghost use Rattle.std.specs.Int.{div_ceil};
ghost use Rattle.std.specs.Prelude.{◌≡◌, ◌+◌, ◌*◌, ◌<◌, ◌≤◌, All, IfOk, length, min};
ghost use Rattle.surface_snapshots.specs.Shifted.{mask_under};
ghost use Rattle.surface_snapshots.specs.Strips.{AreCounted, HasRoom};

use crate::blocks::{ROWS, strip_costs};
use crate::counting::{Costs, NO_COSTS};
use crate::shifted::ShiftedTiles;
use raster_model::Mask;
use side_by_side::{for_each, processors, strip_rows};
use std::alloc::{AllocError, Global};
use std::thread::Threads;

/// What a thread has for the rows that it counts: their costs, and room for the cycles of a block of them and of the row
/// below it.
#[derive(Drop)]
pub(crate) struct Strip {
    pub(crate) costs: Costs,
    pub(crate) cycles: Vec<i64>,
}

impl Costs {
    ghost use Rattle.raster_model.specs.Masks.{open_at};
    ghost use Rattle.raster_model.specs.Raster.{lifted, seam_cost as seam_cost_of};
    ghost use Rattle.std.specs.Prelude.{pos};
    ghost use Rattle.surface_snapshots.specs.Parts.{tile_costs};
    ghost use Rattle.surface_snapshots.specs.Shifted.{cycles_under, raster_under};

    /// The costs of a surface of shifted tiles over their mask. At most `threads` threads, no more than there are processors,
    /// and at least one, count them side by side, each those of a strip of rows. It fails only for lack of memory.
    pub(crate) fn side_by_side<R: Threads + Sync>(
        rt: &R,
        threads: u32,
        alloc: Global,
        surface: &ShiftedTiles<'_>,
        mask: &Mask,
    ) -> Result<Costs, AllocError>
        requires mask { mask.now ≡ mask_under surface.now }
        ensures tiles { IfOk result (λ costs. pos costs.tiles ≡ tile_costs (raster_under surface.now) (open_at mask.now) (lifted (raster_under surface.now) (cycles_under surface.now))) }
        ensures seams { IfOk result (λ costs. pos costs.seams ≡ seam_cost_of (raster_under surface.now) (open_at mask.now) (lifted (raster_under surface.now) (cycles_under surface.now))) }
    {
        let phase = &surface.scene.phase;
        let pixels = phase.width * phase.height;
        let rows = strip_rows(phase.height, pixels, threads.min(processors(rt)));
        let mut strips = strips(alloc, phase.height.div_ceil(rows), rows, phase.width)?;
        Ok(count(rt, &mut strips, surface, mask, rows))
    }
}

/// So many strips, of so many rows of a width.
fn strips(alloc: Global, count: u32, rows: u32, width: u32) -> Result<Vec<Strip>, AllocError>
    requires { width ≤ max_tiled_side }
    ensures len { IfOk result (λ strips. strips.len ≡ count) }
    ensures room { IfOk result (λ strips. All (HasRoom rows width) strips.items) }
{
    let room = (rows.min(ROWS) as usize + 1) * width as usize;
    let mut strips = Vec::new(alloc);
    for _ in 0..count {
        let cycles = vec![in alloc; 0; room]?;
        strips.push(Strip {
            costs: NO_COSTS,
            cycles,
        })?;
    }
    Ok(strips)
}

/// Has the strips counted side by side, each with so many rows as far as the raster goes, and adds their costs.
fn count<R: Threads + Sync>(
    rt: &R,
    strips: &mut [Strip],
    surface: &ShiftedTiles<'_>,
    mask: &Mask,
    rows: u32,
) -> Costs
    requires mask { mask.now ≡ mask_under surface.now }
    requires rows { (0 < rows) × (rows ≤ surface.now.scene.now.phase.height) }
    requires strips { length strips.old ≡ div_ceil surface.now.scene.now.phase.height rows }
    requires room { All (HasRoom rows surface.now.scene.now.phase.width) strips.old }
    ensures { AreCounted surface.now 0 surface.now.scene.now.phase.height result }
{
    let threads = strips.len();
    for_each(
        rt,
        &|place: usize, strip: &mut Strip|
            requires mask { mask.now ≡ mask_under surface.now }
            requires rows { rows ≤ surface.now.scene.now.phase.height }
            requires place { place * rows < surface.now.scene.now.phase.height }
            requires room { HasRoom rows surface.now.scene.now.phase.width strip.old }
            ensures { AreCounted surface.entry.now (place * rows) (min ((place + 1) * rows) surface.entry.now.scene.now.phase.height) strip.exit.now.costs }
        {
            let first = (place * rows as usize) as u32;
            let end = (first + rows).min(surface.scene.phase.height);
            strip.costs = strip_costs(surface, mask, first, end, &mut strip.cycles);
        },
        strips,
    );
    let mut costs = NO_COSTS;
    for place in 0..threads {
        costs = costs.plus(strips[place].costs);
    }
    costs
}
