ghost use Rattle.raster_model.specs.Masks.{open_at};
ghost use Rattle.raster_model.specs.Raster.{lifted};
ghost use Rattle.raster_model.specs.Sheets.{sheet_raster};
ghost use Rattle.raster_model.specs.Seams.{IsAnchored};
ghost use Rattle.std.specs.Prelude.{◌≡◌, ◌*◌, ◌<◌, ◌≤◌, ◌-ℤ◌, ℕ, ℤ, length, pos, slice_index_or, unsigned_abs};
ghost use Rattle.whole_solver.specs.Cycles.{AreSmallCycles, whole_cycles};
ghost use Rattle.whole_solver.specs.Solved.{AreMoved};

use crate::limits::MAX_UNMOVED_CYCLES;
use raster_model::{Mask, Sheet};

/// The cycles of all pixels, moved alike so that the first open pixel, if there is one, has 0.
pub(crate) fn anchored(sheet: &Sheet, mask: &Mask, cycles: Vec<i64>) -> Vec<i64>
    requires same_size { (mask.now.width ≡ sheet.now.phase.now.width) × (mask.now.height ≡ sheet.now.phase.now.height) }
    requires count { length cycles.items ≡ sheet.now.phase.now.width * sheet.now.phase.now.height }
    requires within { (k : ℕ) → unsigned_abs (slice_index_or cycles.items k (pos 0)) ≤ MAX_UNMOVED_CYCLES }
    ensures count { length result.items ≡ sheet.now.phase.now.width * sheet.now.phase.now.height }
    ensures small { AreSmallCycles result.items }
    ensures moved { (by : ℤ) × AreMoved (sheet_raster sheet.now) (whole_cycles sheet.now.phase.now.width cycles.items) (whole_cycles sheet.now.phase.now.width result.items) by }
    ensures anchored { IsAnchored (sheet_raster sheet.now) (open_at mask.now) (lifted (sheet_raster sheet.now) (whole_cycles sheet.now.phase.now.width result.items)) }
{
    match sheet.first_open(mask) {
        Some((x, y)) => {
            let by = cycles[y as usize * sheet.phase.width as usize + x as usize];
            lowered(cycles, by)
        }
        None => cycles,
    }
}

/// The cycles of all pixels, less a number.
fn lowered(cycles: Vec<i64>, by: i64) -> Vec<i64>
    requires by { unsigned_abs by ≤ MAX_UNMOVED_CYCLES }
    requires within { (k : ℕ) → unsigned_abs (slice_index_or cycles.items k (pos 0)) ≤ MAX_UNMOVED_CYCLES }
    ensures count { length result.items ≡ length cycles.items }
    ensures lowered { (k : ℕ) → k < length cycles.items → slice_index_or result.items k (pos 0) ≡ slice_index_or cycles.items k (pos 0) -ℤ by }
{
    let mut cycles = cycles;
    for place in 0..cycles.len() {
        cycles[place] -= by;
    }
    cycles
}
