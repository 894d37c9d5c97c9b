ghost use Rattle.mask_revisions.specs.Edits.{edited};
ghost use Rattle.mask_revisions.specs.Revisions.{AreChanged, AreMet, Meets};
ghost use Rattle.mask_revisions.specs.Steps.{AreStamped, IsPartOf, count_met as met_in, met_across, met_tile};
ghost use Rattle.raster_model.specs.Masks.{IsMaskOf, open_at};
ghost use Rattle.raster_model.specs.Scripts.{IsRectIn, rect_of as box_of};
ghost use Rattle.raster_model.specs.Tiles.{tiles_of};
ghost use Rattle.std.specs.Prelude.{◌≡◌, ℕ, ◌<◌, ◌≤◌, [], IfOk, length, slice_index, vec_capacity};

use crate::edits::{opens, rect_of, set_box};
use raster_model::{Edit, Mask, Rect, Tiling};
use std::alloc::{AllocError, Global};

/// How many tiles an edit's box meets.
pub fn count_met(tiling: &Tiling, edit: Edit) -> u32
    requires { IsRectIn tiling.now.width tiling.now.height (box_of edit) }
    ensures { result ≡ met_in tiling.now (box_of edit) }
{
    let rect = rect_of(edit);
    (rect.y1 / tiling.side - rect.y0 / tiling.side + 1) * columns_met(tiling, rect)
}

/// How many tiles that a box meets lie side by side.
fn columns_met(tiling: &Tiling, rect: Rect) -> u32
    requires { IsRectIn tiling.now.width tiling.now.height rect }
    ensures { result ≡ met_across tiling.now rect }
{
    rect.x1 / tiling.side - rect.x0 / tiling.side + 1
}

/// The tile at a place, from 0, of those that an edit's box meets, row by row.
fn tile_met(tiling: &Tiling, edit: Edit, place: u32) -> u32
    requires rect { IsRectIn tiling.now.width tiling.now.height (box_of edit) }
    requires place { place < met_in tiling.now (box_of edit) }
    ensures value { result ≡ met_tile tiling.now (box_of edit) place }
    ensures meets { Meets tiling.now (box_of edit) result }
    ensures exists { result < tiles_of tiling.now }
{
    let rect = rect_of(edit);
    let across = columns_met(tiling, rect);
    let column = rect.x0 / tiling.side + place % across;
    let row = rect.y0 / tiling.side + place / across;
    tiling.tile_of(column * tiling.side, row * tiling.side)
}

/// The tiles that an edit's box meets, in order. It fails only for lack of memory.
pub fn tiles_met(alloc: Global, tiling: &Tiling, edit: Edit) -> Result<Vec<u32>, AllocError>
    requires { IsRectIn tiling.now.width tiling.now.height (box_of edit) }
    ensures { IfOk result (λ tiles. AreMet tiling.now (box_of edit) tiles.items) }
{
    let count = count_met(tiling, edit);
    let mut tiles = Vec::with_capacity(alloc, count as usize)?;
    for place in 0..count {
        tiles.push(tile_met(tiling, edit, place))?;
    }
    Ok(tiles)
}

/// Applies an edit tile by tile, and lists the tiles in which a pixel changed, in order. The list has room for
/// each tile that the edit's box meets.
pub fn set_tiles(mask: &mut Mask, tiling: &Tiling, edit: Edit, tiles: &mut Vec<u32>)
    requires across { mask.old.width ≡ tiling.now.width }
    requires along { mask.old.height ≡ tiling.now.height }
    requires rect { IsRectIn tiling.now.width tiling.now.height (box_of edit) }
    requires none { tiles.old.items ≡ [] }
    requires room { met_in tiling.now (box_of edit) ≤ vec_capacity tiles.old }
    ensures mask { IsMaskOf mask.new mask.old.width mask.old.height (edited edit (open_at mask.old)) }
    ensures changed { AreChanged tiling.now (open_at mask.old) (edited edit (open_at mask.old)) tiles.new.items }
{
    let rect = rect_of(edit);
    for place in 0..count_met(tiling, edit) {
        let tile = tile_met(tiling, edit, place);
        if set_box(mask, part_in(tiling, rect, tile), opens(edit)) {
            tiles.push_reserved(tile);
        }
    }
}

/// The pixels of a box that lie in a tile.
fn part_in(tiling: &Tiling, rect: Rect, tile: u32) -> Rect
    requires rect { IsRectIn tiling.now.width tiling.now.height rect }
    requires tile { tile < tiles_of tiling.now }
    requires meets { Meets tiling.now rect tile }
    ensures { IsPartOf tiling.now rect tile result }
{
    let window = tiling.window(tile);
    Rect {
        x0: rect.x0.max(window.x0),
        y0: rect.y0.max(window.y0),
        x1: rect.x1.min(window.x1),
        y1: rect.y1.min(window.y1),
    }
}

/// Gives the tiles of a list a stamp.
pub fn restamp(stamps: &mut [u32], tiles: &[u32], stamp: u32)
    requires { (i : ℕ) → i < length tiles.now → slice_index tiles.now i < length stamps.old }
    ensures { AreStamped stamps.old stamps.new tiles.now (length tiles.now) stamp }
{
    for &tile in tiles {
        stamps[tile as usize] = stamp;
    }
}
