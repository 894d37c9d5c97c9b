ghost use Rattle.raster_model.specs.Masks.{open_at};
ghost use Rattle.raster_model.specs.Raster.{lifted};
ghost use Rattle.raster_model.specs.Sheets.{sheet_raster};
ghost use Rattle.raster_model.specs.Seams.{IsAnchored};
ghost use Rattle.std.specs.Prelude.{◌≡◌, ◌*◌, IfNone, IfSome, IsTrue, length};
ghost use Rattle.whole_solver.specs.Cycles.{AreSmallCycles, whole_cycles};
ghost use Rattle.whole_solver.specs.Results.{AreRight, IsGoodWhole};

use crate::result::WholeResult;
use certificates::check_whole_side_by_side;
use raster_model::{Heights, MAX_WHOLE_CYCLES, Mask, Sheet};
use std::thread::Threads;

/// The result with these cycles and faces, if they are right: a number of cycles for each pixel, none of them too great and
/// 0 at the first open pixel, and faces that certify their surface. At most `workers` threads judge that at once, but at least
/// one does.
pub(crate) fn certified<R: Threads + Sync>(
    rt: &R,
    sheet: &Sheet,
    mask: &Mask,
    workers: u32,
    cycles: Vec<i64>,
    faces: Vec<i64>,
) -> Option<WholeResult>
    requires same_size { (mask.now.width ≡ sheet.now.phase.now.width) × (mask.now.height ≡ sheet.now.phase.now.height) }
    ensures found { IfSome result (IsGoodWhole (sheet_raster sheet.now) (open_at mask.now)) }
    ensures none { IfNone result (AreRight (sheet_raster sheet.now) (open_at mask.now) cycles.items faces.items → ⊥) }
{
    let pixels = sheet.phase.width as usize * sheet.phase.height as usize;
    if cycles.len() != pixels {
        return None;
    }
    if !are_small(&cycles) {
        return None;
    }
    let solved = WholeResult {
        width: sheet.phase.width,
        cost: 0,
        cycles,
        faces,
    };
    judged(rt, sheet, mask, workers, solved)
}

/// A result with its cost, if it is anchored and its faces certify it.
fn judged<R: Threads + Sync>(
    rt: &R,
    sheet: &Sheet,
    mask: &Mask,
    workers: u32,
    solved: WholeResult,
) -> Option<WholeResult>
    requires same_size { (mask.now.width ≡ sheet.now.phase.now.width) × (mask.now.height ≡ sheet.now.phase.now.height) }
    requires width { solved.width ≡ sheet.now.phase.now.width }
    requires count { length solved.cycles.items ≡ sheet.now.phase.now.width * sheet.now.phase.now.height }
    ensures found { IfSome result (IsGoodWhole (sheet_raster sheet.now) (open_at mask.now)) }
    ensures none { IfNone result (AreRight (sheet_raster sheet.now) (open_at mask.now) solved.cycles.items solved.faces.items → ⊥) }
{
    if !is_anchored(sheet, mask, &solved) {
        return None;
    }
    let Ok(cost) = check_whole_side_by_side(rt, workers, sheet, mask, &solved, &solved.faces) else {
        return None;
    };
    let WholeResult {
        width,
        cycles,
        faces,
        ..
    } = solved;
    Some(WholeResult {
        width,
        cost,
        cycles,
        faces,
    })
}

/// Whether no cycles are too great. The loop does not stop at the first that are, so that several can be judged at once.
pub(crate) fn are_small(cycles: &[i64]) -> bool
    ensures known { IsTrue result → AreSmallCycles cycles.now }
    ensures all { AreSmallCycles cycles.now → IsTrue result }
{
    let mut outside = false;
    for place in 0..cycles.len() {
        outside |= cycles[place].unsigned_abs() > MAX_WHOLE_CYCLES;
    }
    !outside
}

/// Whether the cycles at the first open pixel, if there is one, are 0.
pub(crate) fn is_anchored(sheet: &Sheet, mask: &Mask, solved: &WholeResult) -> bool
    requires same_size { (mask.now.width ≡ sheet.now.phase.now.width) × (mask.now.height ≡ sheet.now.phase.now.height) }
    requires width { solved.now.width ≡ sheet.now.phase.now.width }
    requires count { length solved.now.cycles.items ≡ sheet.now.phase.now.width * sheet.now.phase.now.height }
    ensures known { IsTrue result → IsAnchored (sheet_raster sheet.now) (open_at mask.now) (lifted (sheet_raster sheet.now) (whole_cycles sheet.now.phase.now.width solved.now.cycles.items)) }
    ensures all { IsAnchored (sheet_raster sheet.now) (open_at mask.now) (lifted (sheet_raster sheet.now) (whole_cycles sheet.now.phase.now.width solved.now.cycles.items)) → IsTrue result }
{
    match sheet.first_open(mask) {
        Some((x, y)) => solved.cycles(x, y) == 0,
        None => true,
    }
}
