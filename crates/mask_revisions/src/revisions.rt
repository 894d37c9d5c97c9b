ghost use Rattle.mask_revisions.specs.Windows.{AreListedBefore};
ghost use Rattle.raster_model.specs.Limits.{max_tiled_side};
ghost use Rattle.raster_model.specs.Masks.{open_at};
ghost use Rattle.raster_model.specs.Tiles.{width_of};
ghost use Rattle.std.specs.Prelude.{◌≡◌, ◌+◌, ◌-◌, ◌*◌, ◌<◌, ◌≤◌, OnOk};

use crate::changes::{count_met, restamp, set_tiles};
use raster_model::{Edit, Mask, Tiling, Window};
use std::alloc::{AllocError, Global};
use std::marker::Model;

/// A mask through its revisions. Revision 0 is the first mask, and each edit makes the next. Each tile has a
/// stamp: the last revision at which one of its pixels changed, and 0 if none did.
#[derive(Drop)]
pub struct Revisions {
    mask: Mask,
    tiling: Tiling,
    /// By tile.
    stamps: Vec<u32>,
    count: u32,
}

impl Model for Revisions {
    ghost use Rattle.mask_revisions.specs.RevisionsView.{RevisionsView};
    ghost use Rattle.raster_model.specs.Tiles.{tiles_of};
    ghost use Rattle.std.specs.Prelude.{◌≡◌, ℕ, ◌≤◌, slice_index, vec_len};

    ghost Value = { RevisionsView };

    ghost view = { λ r. record { mask = r.mask; tiling = r.tiling; stamps = r.stamps.items; count = r.count } };

    ghost invariant = { λ r. (r.mask.width ≡ r.tiling.width) × (r.mask.height ≡ r.tiling.height) × (vec_len r.stamps ≡ tiles_of r.tiling) };
}

impl Revisions {
    ghost use Rattle.mask_revisions.specs.Revisions.{AreChanged, AreRevisionsOf, AddsEdit, IsWindowMask};
    ghost use Rattle.raster_model.specs.Masks.{open_at};
    ghost use Rattle.raster_model.specs.Scripts.{IsRectIn, rect_of};
    ghost use Rattle.raster_model.specs.Sums.{Field};
    ghost use Rattle.raster_model.specs.Tiles.{tiles_of, window_of};
    ghost use Rattle.raster_model.specs.declared.script.Edit.{Edit as Change};
    ghost use Rattle.std.specs.Prelude.{◌≡◌, ◌+◌, ◌<◌, ◌^◌, ◌∷◌, ◌++◌, [], Bool, IfOk, List, OnErr, OnOk, slice_index};

    /// Revision 0.
    pub fn new(alloc: Global, first: Mask, tiling: Tiling) -> Result<Revisions, AllocError>
        requires across { first.width ≡ tiling.width }
        requires along { first.height ≡ tiling.height }
        ensures mask { IfOk result (λ made. made.mask ≡ first) }
        ensures tiling { IfOk result (λ made. made.tiling ≡ tiling) }
        ensures first { IfOk result (λ made. AreRevisionsOf (open_at first) [] made) }
    {
        let stamps = vec![in alloc; 0; tiling.tile_count() as usize]?;
        Ok(Revisions {
            mask: first,
            tiling,
            stamps,
            count: 0,
        })
    }

    /// Applies an edit, which makes the next revision, and answers the tiles in which a pixel changed, in order. It fails
    /// for lack of memory, also if there is no number left for a revision; then nothing changes.
    pub fn push(&mut self, alloc: Global, edit: Edit) -> Result<Vec<u32>, AllocError>
        requires rect { IsRectIn self.old.tiling.width self.old.tiling.height (rect_of edit) }
        ensures refused { OnErr result (self.new ≡ self.old) }
        ensures pushed { OnOk result (AddsEdit self.old self.new edit) }
        ensures next { OnOk result ((first : Field Bool) (edits : List Change) → AreRevisionsOf first edits self.old → AreRevisionsOf first (edits ++ edit ∷ []) self.new) }
        ensures changed { IfOk result (λ tiles. AreChanged self.old.tiling (open_at self.old.mask) (open_at self.new.mask) tiles.items) }
    {
        if self.count == u32::MAX {
            return Err(AllocError);
        }
        let met = count_met(&self.tiling, edit);
        let mut tiles = Vec::with_capacity(alloc, met as usize)?;
        set_tiles(&mut self.mask, &self.tiling, edit, &mut tiles);
        self.count += 1;
        restamp(&mut self.stamps, &tiles, self.count);
        Ok(tiles)
    }

    /// The present revision: how many edits there were.
    pub fn count(&self) -> u32
        ensures { result ≡ self.now.count }
    {
        self.count
    }

    /// Whether a pixel is open now.
    pub fn is_open(&self, x: u32, y: u32) -> bool
        requires across { x < self.now.tiling.width }
        requires along { y < self.now.tiling.height }
        ensures { result ≡ open_at self.now.mask x y }
    {
        self.mask.is_open(x, y)
    }

    /// The stamp of a tile.
    pub fn stamp(&self, tile: u32) -> u32
        requires { tile < tiles_of self.now.tiling }
        ensures { result ≡ slice_index self.now.stamps tile }
    {
        self.stamps[tile as usize]
    }

    /// The present mask.
    pub fn mask(&self) -> &Mask
        ensures { result.now ≡ self.now.mask }
    {
        &self.mask
    }

    /// A copy of the present mask.
    pub fn mask_copy(&self, alloc: Global) -> Result<Mask, AllocError>
        ensures { IfOk result (λ mask. mask ≡ self.now.mask) }
    {
        self.mask.try_copy(alloc)
    }

    /// The present mask of a tile: for each pixel of its window, in row order, whether it is open.
    pub fn window_mask(&self, alloc: Global, tile: u32) -> Result<Vec<bool>, AllocError>
        requires { tile < tiles_of self.now.tiling }
        ensures { IfOk result (λ list. IsWindowMask (window_of self.now.tiling tile) (open_at self.now.mask) list.items) }
    {
        let window = self.tiling.window(tile);
        let pixels = window.width() * window.height();
        let mut list = Vec::with_capacity(alloc, pixels as usize)?;
        for y in window.y0..window.y1 + 1 {
            add_row(&self.mask, window, y, &mut list)?;
        }
        Ok(list)
    }
}

/// Adds to a list, for each pixel of a window's row, whether it is open.
fn add_row(mask: &Mask, window: Window, y: u32, list: &mut Vec<bool>) -> Result<(), AllocError>
    requires across { (window.x0 ≤ window.x1) × (window.x1 < mask.now.width) × (mask.now.width ≤ max_tiled_side) }
    requires row { (window.y0 ≤ y) × (y < mask.now.height) }
    requires listed { AreListedBefore window (open_at mask.now) ((y - window.y0) * width_of window) list.old.items }
    ensures { OnOk result (AreListedBefore window (open_at mask.now) ((y + 1 - window.y0) * width_of window) list.new.items) }
{
    for x in window.x0..window.x1 + 1 {
        list.push(mask.is_open(x, y))?;
    }
    Ok(())
}
