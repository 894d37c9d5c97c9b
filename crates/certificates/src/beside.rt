ghost use Rattle.certificates.specs.RowWords.{AreFound, AreSums, IsFound, IsWhole};
ghost use Rattle.certificates.specs.TileWords.{AreCertified, HasFaces, IsVerdictOn, KnowsTile, cost_in};
ghost use Rattle.certificates.specs.Verdicts.{IsFacesVerdict};
ghost use Rattle.certificates.specs.declared.verdicts.TileVerdict.TheVariants.{Good};
ghost use Rattle.raster_model.specs.Cells.{IsCertifiedTile};
ghost use Rattle.raster_model.specs.Heights.{KnowsOpen};
ghost use Rattle.raster_model.specs.Masks.{open_at};
ghost use Rattle.raster_model.specs.Raster.{lifted};
ghost use Rattle.raster_model.specs.Sheets.{sheet_raster};
ghost use Rattle.raster_model.specs.Whole.{IsCertifiedWhole, IsLeastOfAll, whole_cost};
ghost use Rattle.std.specs.Int.{div_ceil};
ghost use Rattle.std.specs.Prelude.{◌≡◌, ◌≢◌, ◌+◌, ◌*◌, ◌<◌, ◌≤◌, ◌↔◌, IfErr, IfOk, IfSome, IsOk, length, min, pos};

use crate::cut::Cut;
use crate::numbers::is_same;
use crate::row_sums::{NO_SUMS, Sums};
use crate::tile::Tile;
use crate::verdicts::TileVerdict;
use raster_model::{Heights, Mask, Sheet, Window};
use side_by_side::{for_each, processors, strip_rows};
use std::thread::Threads;

/// Into how many strips a raster is cut at most.
const MOST: usize = 16;

/// What a thread finds of a strip of rows. There is nothing before, and nothing if the faces do not fit.
#[derive(Clone, Copy)]
pub(crate) struct Strip {
    pub(crate) sums: Option<Sums>,
}

/// Checks the faces that certify a surface over the whole raster, as `check_whole` does. At most `workers` threads, no more
/// than there are processors, and at least one, judge strips of rows side by side. Where these find that the faces do not
/// certify the surface, it is judged once more in order, for the first break. It takes no memory. (Costantini 1998.)
pub fn check_whole_side_by_side<R: Threads + Sync, H: Heights + Sync>(
    rt: &R,
    workers: u32,
    sheet: &Sheet,
    mask: &Mask,
    heights: &H,
    faces: &[i64],
) -> Result<u128, TileVerdict>
    requires same_size { (mask.now.width ≡ sheet.now.phase.now.width) × (mask.now.height ≡ sheet.now.phase.now.height) }
    requires known { KnowsOpen (sheet_raster sheet.now) (open_at mask.now) (H.knows heights.now) }
    ensures certified { IfOk result (λ cost. IsCertifiedWhole (sheet_raster sheet.now) (open_at mask.now) (lifted (sheet_raster sheet.now) (H.cycles_at heights.now)) faces.now × (pos cost ≡ whole_cost (sheet_raster sheet.now) (open_at mask.now) (lifted (sheet_raster sheet.now) (H.cycles_at heights.now)))) }
    ensures least { IfOk result (λ cost. IsLeastOfAll (sheet_raster sheet.now) (open_at mask.now) (lifted (sheet_raster sheet.now) (H.cycles_at heights.now))) }
    ensures refused { IfErr result (λ verdict. IsFacesVerdict (sheet_raster sheet.now) (open_at mask.now) 0 (lifted (sheet_raster sheet.now) (H.cycles_at heights.now)) faces.now verdict × (verdict ≢ Good)) }
    ensures good { IsOk result ↔ IsCertifiedTile (sheet_raster sheet.now) (open_at mask.now) 0 (lifted (sheet_raster sheet.now) (H.cycles_at heights.now)) faces.now }
{
    let window = Window {
        x0: 0,
        y0: 0,
        x1: sheet.phase.width - 1,
        y1: sheet.phase.height - 1,
    };
    let tile = Tile {
        sheet: *sheet,
        mask,
        cut: Cut::Whole,
        number: 0,
        window,
    };
    check_beside(rt, workers, &tile, heights, faces)
}

/// What the surface costs in the tile of the whole raster if the faces certify it there, and otherwise the first break.
fn check_beside<R: Threads + Sync, H: Heights + Sync>(
    rt: &R,
    workers: u32,
    tile: &Tile<'_>,
    heights: &H,
    faces: &[i64],
) -> Result<u128, TileVerdict>
    requires whole { IsWhole tile.now }
    requires known { KnowsTile tile.now (H.knows heights.now) }
    ensures certified { IfOk result (λ cost. AreCertified tile.now (H.cycles_at heights.now) faces.now × (pos cost ≡ cost_in tile.now (H.cycles_at heights.now))) }
    ensures refused { IfErr result (λ verdict. IsVerdictOn tile.now (H.cycles_at heights.now) faces.now verdict × (verdict ≢ Good)) }
{
    match certified_cost(rt, workers, tile, heights, faces) {
        Some(cost) => Ok(cost),
        None => tile.check(heights, faces),
    }
}

/// What the surface costs, if threads find that the faces certify it.
fn certified_cost<R: Threads + Sync, H: Heights + Sync>(
    rt: &R,
    workers: u32,
    tile: &Tile<'_>,
    heights: &H,
    faces: &[i64],
) -> Option<u128>
    requires whole { IsWhole tile.now }
    requires known { KnowsTile tile.now (H.knows heights.now) }
    ensures { IfSome result (λ cost. AreCertified tile.now (H.cycles_at heights.now) faces.now × (pos cost ≡ cost_in tile.now (H.cycles_at heights.now))) }
{
    let window = tile.window;
    let cells = (window.x1 - window.x0) as usize * (window.y1 - window.y0) as usize;
    if faces.len() != cells {
        return None;
    }
    let Some(sums) = sums_beside(rt, workers, tile, heights, faces) else {
        return None;
    };
    if is_same(sums.bound, sums.cost) {
        Some(sums.cost)
    } else {
        None
    }
}

/// The sums of all rows, if the faces fit. There are none if one thread is to judge alone.
fn sums_beside<R: Threads + Sync, H: Heights + Sync>(
    rt: &R,
    workers: u32,
    tile: &Tile<'_>,
    heights: &H,
    faces: &[i64],
) -> Option<Sums>
    requires whole { IsWhole tile.now }
    requires count { HasFaces tile.now faces.now }
    requires known { KnowsTile tile.now (H.knows heights.now) }
    ensures { IfSome result (AreSums tile.now (H.cycles_at heights.now) faces.now 0 tile.now.sheet.phase.now.height) }
{
    let phase = tile.sheet.phase;
    let threads = workers.min(processors(rt)).min(MOST as u32);
    let rows = strip_rows(phase.height, phase.width * phase.height, threads);
    let count = phase.height.div_ceil(rows) as usize;
    if count == 1 || count > MOST {
        return None;
    }
    let mut strips = [Strip { sums: None }; MOST];
    sums_of_strips(rt, &mut strips[..count], tile, heights, faces, rows)
}

/// Has the strips judged side by side, and adds their sums, if the faces fit in each.
fn sums_of_strips<R: Threads + Sync, H: Heights + Sync>(
    rt: &R,
    strips: &mut [Strip],
    tile: &Tile<'_>,
    heights: &H,
    faces: &[i64],
    rows: u32,
) -> Option<Sums>
    requires whole { IsWhole tile.now }
    requires count { HasFaces tile.now faces.now }
    requires known { KnowsTile tile.now (H.knows heights.now) }
    requires rows { (0 < rows) × (rows ≤ tile.now.sheet.phase.now.height) }
    requires strips { length strips.old ≡ div_ceil tile.now.sheet.phase.now.height rows }
    ensures { IfSome result (AreSums tile.now (H.cycles_at heights.now) faces.now 0 tile.now.sheet.phase.now.height) }
{
    find(rt, strips, tile, heights, faces, rows);
    let mut sums = NO_SUMS;
    for place in 0..strips.len() {
        let Some(more) = strips[place].sums else {
            return None;
        };
        sums = sums.plus(more);
    }
    Some(sums)
}

/// Has the strips judged side by side, each of which has so many rows as far as the raster goes.
fn find<R: Threads + Sync, H: Heights + Sync>(
    rt: &R,
    strips: &mut [Strip],
    tile: &Tile<'_>,
    heights: &H,
    faces: &[i64],
    rows: u32,
)
    requires whole { IsWhole tile.now }
    requires count { HasFaces tile.now faces.now }
    requires known { KnowsTile tile.now (H.knows heights.now) }
    requires rows { (0 < rows) × (rows ≤ tile.now.sheet.phase.now.height) }
    requires strips { length strips.old ≡ div_ceil tile.now.sheet.phase.now.height rows }
    ensures same { length strips.new ≡ length strips.old }
    ensures found { AreFound tile.now (H.cycles_at heights.now) faces.now rows strips.new }
{
    for_each(
        rt,
        &|place: usize, strip: &mut Strip|
            requires whole { IsWhole tile.now }
            requires count { HasFaces tile.now faces.now }
            requires known { KnowsTile tile.now (H.knows heights.now) }
            requires rows { rows ≤ tile.now.sheet.phase.now.height }
            requires place { place * rows < tile.now.sheet.phase.now.height }
            ensures { IsFound tile.entry.now (H.cycles_at heights.entry.now) faces.entry.now rows place strip.exit.now }
        {
            let first = (place * rows as usize) as u32;
            let end = (first + rows).min(tile.sheet.phase.height);
            strip.sums = tile.sums_of_rows(heights, faces, first, end);
        },
        strips,
    );
}
