use crate::extent::Extent;
use crate::labels::number_patches;
use joined_cells::measure_trees;
use std::alloc::{AllocError, Global};
use std::marker::Model;

/// The patches of a raster that has a key for each pixel, numbered from 0 in the row order of their first pixels. Two
/// pixels of one key other than 0 are in one patch if a walk over right, left, upper and lower neighbours joins them
/// through pixels of that key.
#[derive(Drop)]
pub struct Patches {
    width: u32,
    height: u32,
    /// For each pixel in row order, the number of its patch, or `u32::MAX` if its key is 0.
    labels: Vec<u32>,
    /// How many pixels each patch has.
    sizes: Vec<u32>,
    /// The place of each patch's first pixel in row order.
    firsts: Vec<u32>,
}

impl Model for Patches {
    ghost use Rattle.auto_masks.specs.Patches.{first_place, patch_size};
    ghost use Rattle.auto_masks.specs.PatchesView.{PatchesView};
    ghost use Rattle.joined_cells.specs.Flood.{no_label};
    ghost use Rattle.raster_model.specs.Limits.{is_raster_size};
    ghost use Rattle.std.specs.Prelude.{◌≡◌, ◌*◌, ◌<◌, ◌≤◌, ℕ, IsTrue, slice_index, vec_len};

    ghost Value = { PatchesView };

    ghost view = { λ p. record { width = p.width; height = p.height; labels = p.labels.items; count = vec_len p.sizes } };

    ghost invariant = { λ p. IsTrue (is_raster_size p.width p.height) × (vec_len p.labels ≡ p.width * p.height) × (vec_len p.sizes ≤ p.width * p.height) × (vec_len p.firsts ≡ vec_len p.sizes) × ((n : ℕ) → n < vec_len p.sizes → slice_index p.sizes.items n ≡ patch_size (record { width = p.width; height = p.height; labels = p.labels.items; count = vec_len p.sizes }) n) × ((n : ℕ) → n < vec_len p.sizes → slice_index p.firsts.items n ≡ first_place (record { width = p.width; height = p.height; labels = p.labels.items; count = vec_len p.sizes }) n) × ((i : ℕ) → i < vec_len p.labels → slice_index p.labels.items i < no_label → slice_index p.labels.items i < vec_len p.sizes) };
}

impl Patches {
    ghost use Rattle.auto_masks.specs.Patches.{ArePatchesOf, first_column, first_row, key_at, patch_at, patch_size};
    ghost use Rattle.raster_model.specs.Limits.{is_raster_size};
    ghost use Rattle.std.specs.Prelude.{◌≡◌, ◌*◌, ◌<◌, ◌≤◌, IfOk, IfSome, IsTrue, length};

    /// The patches of a raster of `width` by `height` pixels with a key for each pixel in row order. It fails only for
    /// lack of memory.
    pub fn of(alloc: Global, width: u32, height: u32, keys: &[i64]) -> Result<Patches, AllocError>
        requires limits { IsTrue (is_raster_size width height) }
        requires full { length keys.now ≡ width * height }
        ensures { IfOk result (λ made. ArePatchesOf width height (key_at width keys.now) made) }
    {
        let extent = Extent { width, height };
        let numbers = number_patches(alloc, extent, keys)?;
        let measures = measure_trees(alloc, &numbers.labels, numbers.count)?;
        Ok(Patches {
            width,
            height,
            labels: numbers.labels,
            sizes: measures.sizes,
            firsts: measures.firsts,
        })
    }

    /// How many patches there are.
    pub fn count(&self) -> u32
        ensures value { result ≡ self.now.count }
        ensures few { result ≤ self.now.width * self.now.height }
    {
        self.sizes.len() as u32
    }

    /// The number of the patch of the pixel (`x`, `y`); None exactly if its key is 0.
    pub fn label(&self, x: u32, y: u32) -> Option<u32>
        requires across { x < self.now.width }
        requires along { y < self.now.height }
        ensures value { result ≡ patch_at self.now x y }
        ensures below { IfSome result (λ label. label < self.now.count) }
    {
        let label = self.labels[y as usize * self.width as usize + x as usize];
        (label != u32::MAX).then_some(label)
    }

    /// How many pixels a patch has.
    pub fn size(&self, label: u32) -> u32
        requires { label < self.now.count }
        ensures { result ≡ patch_size self.now label }
    {
        self.sizes[label as usize]
    }

    /// The column and the row of the first pixel of a patch in row order.
    pub fn first(&self, label: u32) -> (u32, u32)
        requires { label < self.now.count }
        ensures column { result.0 ≡ first_column self.now label }
        ensures row { result.1 ≡ first_row self.now label }
    {
        let place = self.firsts[label as usize];
        (place % self.width, place / self.width)
    }
}
