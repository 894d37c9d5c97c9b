use crate::flood::join_all;
use crate::numbers::number_all;
use joined_cells::own_parents;
use raster_model::{Mask, Tiling};
use std::alloc::{AllocError, Global};
use std::marker::Model;

/// The regions of a tiled raster under a mask, numbered from 0 in the row order of their first pixels. Two open pixels
/// of one tile are in one region if a walk over right, left, upper and lower neighbours joins them through open pixels
/// of that tile. (Chen and Zebker 2002, here with tiles that do not overlap.)
#[derive(Drop)]
pub struct Regions {
    width: u32,
    height: u32,
    /// For each pixel in row order, the number of its region, or `u32::MAX` if it is masked.
    labels: Vec<u32>,
    count: u32,
}

impl Model for Regions {
    ghost use Rattle.raster_model.specs.Limits.{max_tiled_side};
    ghost use Rattle.seam_regions.specs.Regions.{most_regions};
    ghost use Rattle.seam_regions.specs.RegionsView.{RegionsView};
    ghost use Rattle.std.specs.Prelude.{◌≡◌, ◌*◌, ◌≤◌, vec_len};

    ghost Value = { RegionsView };

    ghost view = { λ r. record { width = r.width; height = r.height; labels = r.labels.items; count = r.count } };

    ghost invariant = { λ r. (1 ≤ r.width) × (r.width ≤ max_tiled_side) × (1 ≤ r.height) × (r.height ≤ max_tiled_side) × (vec_len r.labels ≡ r.width * r.height) × (r.count ≤ most_regions) };
}

impl Regions {
    ghost use Rattle.seam_regions.specs.Regions.{AreRegionsOf, most_regions, region_at};
    ghost use Rattle.std.specs.Prelude.{◌≡◌, ◌*◌, ◌<◌, ◌≤◌, IfOk, length};

    /// The regions of a tiling's raster under a mask of the same size. It fails only for lack of memory.
    pub fn of(alloc: Global, tiling: &Tiling, mask: &Mask) -> Result<Regions, AllocError>
        requires across { mask.now.width ≡ tiling.now.width }
        requires along { mask.now.height ≡ tiling.now.height }
        ensures { IfOk result (λ made. AreRegionsOf tiling.now mask.now made) }
    {
        let mut labels = own_parents(alloc, tiling.width * tiling.height)?;
        join_all(&mut labels, tiling, mask);
        let count = number_all(&mut labels, tiling, mask);
        Ok(Regions {
            width: tiling.width,
            height: tiling.height,
            labels,
            count,
        })
    }

    /// How many regions there are.
    pub fn count(&self) -> u32
        ensures value { result ≡ self.now.count }
        ensures few { result ≤ most_regions }
    {
        self.count
    }

    /// The number of the region of the pixel (`x`, `y`); None exactly if the pixel is masked.
    pub fn region(&self, x: u32, y: u32) -> Option<u32>
        requires across { x < self.now.width }
        requires along { y < self.now.height }
        ensures { result ≡ region_at self.now x y }
    {
        let label = self.labels[y as usize * self.width as usize + x as usize];
        (label != u32::MAX).then_some(label)
    }

    /// A number for each pixel of the raster in row order: that of its region, or `u32::MAX` if it is masked.
    pub fn labels(&self) -> &[u32]
        ensures value { result.now ≡ self.now.labels }
        ensures size { length result.now ≡ self.now.width * self.now.height }
    {
        &self.labels
    }
}
