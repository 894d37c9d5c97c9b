use crate::edges::CertainEdges;
use crate::labels::rank_trees;
use joined_cells::{measure_trees, number_trees};
use raster_model::{Heights, Mask, Sheet};
use std::alloc::{AllocError, Global};
use std::marker::Model;

/// The parts of a raster in which every surface that costs at most a limit more than a certified one has the same cycles, up
/// to one constant: those with at least so many pixels, numbered from 1 in the row order of their first pixels. An edge with
/// open ends joins them if its margin is above the limit.
#[derive(Drop)]
pub struct Parts {
    width: u32,
    height: u32,
    /// For each pixel in row order, the number of its part, or 0 if it is masked or its part has too few pixels.
    labels: Vec<u32>,
    /// How many pixels are in no part, and how many each part has.
    sizes: Vec<u32>,
    /// The place of each part's first pixel in row order, at the part's number.
    firsts: Vec<u32>,
}

impl Model for Parts {
    ghost use Rattle.certain_parts.specs.Labels.{first_place, part_size};
    ghost use Rattle.certain_parts.specs.PartsView.{PartsView};
    ghost use Rattle.raster_model.specs.Limits.{is_raster_size};
    ghost use Rattle.std.specs.Prelude.{◌≡◌, ◌+◌, ◌-◌, ◌*◌, ◌<◌, ◌≤◌, ℕ, IsTrue, slice_index, vec_len};

    ghost Value = { PartsView };

    ghost view = { λ p. record { width = p.width; height = p.height; labels = p.labels.items; count = vec_len p.sizes - 1 } };

    ghost invariant = { λ p. IsTrue (is_raster_size p.width p.height) × (vec_len p.labels ≡ p.width * p.height) × (1 ≤ vec_len p.sizes) × (vec_len p.sizes ≤ p.width * p.height + 1) × (vec_len p.firsts ≡ vec_len p.sizes) × ((n : ℕ) → n < vec_len p.sizes → slice_index p.sizes.items n ≡ part_size (record { width = p.width; height = p.height; labels = p.labels.items; count = vec_len p.sizes - 1 }) n) × ((n : ℕ) → 1 ≤ n → n < vec_len p.sizes → slice_index p.firsts.items n ≡ first_place (record { width = p.width; height = p.height; labels = p.labels.items; count = vec_len p.sizes - 1 }) n) };
}

impl Parts {
    ghost use Rattle.certain_parts.specs.Faces.{faced_by};
    ghost use Rattle.certain_parts.specs.Labels.{ArePartsOf, first_column, first_row, label_at, part_size};
    ghost use Rattle.raster_model.specs.Masks.{open_at};
    ghost use Rattle.raster_model.specs.Raster.{lifted};
    ghost use Rattle.raster_model.specs.Sheets.{sheet_raster};
    ghost use Rattle.raster_model.specs.Whole.{IsCertifiedWhole};
    ghost use Rattle.std.specs.Prelude.{◌≡◌, ◌*◌, ◌<◌, ◌≤◌, IfOk};

    /// The parts of a raster at a limit that have at least `least` pixels, by a surface over the whole raster and the faces
    /// that certify it, one for each cell in row order. It takes 12 bytes a pixel at most, and fails only for lack of memory.
    /// (Costantini 1998.)
    pub fn of<H: Heights>(
        alloc: Global,
        sheet: &Sheet<'_>,
        mask: &Mask,
        heights: &H,
        faces: &[i64],
        limit: u32,
        least: u32,
    ) -> Result<Parts, AllocError>
        requires same_size { (mask.now.width ≡ sheet.now.phase.now.width) × (mask.now.height ≡ sheet.now.phase.now.height) }
        requires certified { IsCertifiedWhole (sheet_raster sheet.now) (open_at mask.now) (lifted (sheet_raster sheet.now) (H.cycles_at heights.now)) faces.now }
        ensures { IfOk result (λ made. ArePartsOf (faced_by (sheet_raster sheet.now) (open_at mask.now) (H.cycles_at heights.now) faces.now) limit least made) }
    {
        let edges = CertainEdges {
            sheet,
            mask,
            heights,
            faces,
            limit,
        };
        let mut trees = number_trees(alloc, &edges)?;
        let count = rank_trees(alloc, &mut trees.labels, trees.count, least)?;
        let measures = measure_trees(alloc, &trees.labels, count + 1)?;
        Ok(Parts {
            width: mask.width(),
            height: mask.height(),
            labels: trees.labels,
            sizes: measures.sizes,
            firsts: measures.firsts,
        })
    }

    /// How many parts there are.
    pub fn count(&self) -> u32
        ensures value { result ≡ self.now.count }
        ensures few { result ≤ self.now.width * self.now.height }
    {
        (self.sizes.len() - 1) as u32
    }

    /// The number of the part of the pixel (`x`, `y`), or 0 if it is in none.
    pub fn label(&self, x: u32, y: u32) -> u32
        requires across { x < self.now.width }
        requires along { y < self.now.height }
        ensures { result ≡ label_at self.now x y }
    {
        self.labels[y as usize * self.width as usize + x as usize]
    }

    /// How many pixels a part has.
    pub fn size(&self, part: u32) -> u32
        requires one { 1 ≤ part }
        requires below { part ≤ self.now.count }
        ensures { result ≡ part_size self.now part }
    {
        self.sizes[part as usize]
    }

    /// The column and the row of the first pixel of a part in row order.
    pub fn first(&self, part: u32) -> (u32, u32)
        requires one { 1 ≤ part }
        requires below { part ≤ self.now.count }
        ensures column { result.0 ≡ first_column self.now part }
        ensures row { result.1 ≡ first_row self.now part }
    {
        let place = self.firsts[part as usize];
        (place % self.width, place / self.width)
    }
}
