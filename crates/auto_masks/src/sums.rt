ghost use Rattle.auto_masks.specs.Screened.{is_strong as is_strong_pixel, max_near, max_radius, near_pixels};
ghost use Rattle.auto_masks.specs.Sums.{AreSummed};
ghost use Rattle.raster_model.specs.Masks.{open_at};
ghost use Rattle.raster_model.specs.Sums.{Field};
ghost use Rattle.std.specs.Prelude.{◌≡◌, ◌+◌, ◌*◌, ◌<◌, ◌≤◌, ℕ, Bool, IfOk, length, slice_index};

use crate::extent::Extent;
use crate::terms::ScreenTerms;
use raster_model::{Mask, Plane};
use std::alloc::{AllocError, Global};

/// For each corner of the pixels, how many strong pixels lie above it and to its left. Corners come in row order; there
/// is one more in a row than there are pixels, and one row more. (Crow, Computer Graphics 18(3), 1984.)
pub fn sum_strong(
    alloc: Global,
    terms: ScreenTerms,
    weights: &Plane,
    mask: &Mask,
) -> Result<Vec<u32>, AllocError>
    requires across { mask.now.width ≡ weights.now.width }
    requires along { mask.now.height ≡ weights.now.height }
    ensures full { IfOk result (λ sums. length sums.items ≡ (weights.now.width + 1) * (weights.now.height + 1)) }
    ensures sums { IfOk result (λ sums. AreSummed weights.now.width (is_strong_pixel terms weights.now (open_at mask.now)) ((weights.now.height + 1) * (weights.now.width + 1)) sums.items) }
{
    let corners = (weights.width as usize + 1) * (weights.height as usize + 1);
    let mut sums = vec![in alloc; 0; corners]?;
    sum_rows(&mut sums, terms, weights, mask);
    Ok(sums)
}

/// Sets the sums of all corners but those of the first row, which stay 0.
fn sum_rows(sums: &mut [u32], terms: ScreenTerms, weights: &Plane, mask: &Mask)
    requires across { mask.now.width ≡ weights.now.width }
    requires along { mask.now.height ≡ weights.now.height }
    requires full { length sums.old ≡ (weights.now.width + 1) * (weights.now.height + 1) }
    requires zeros { (i : ℕ) → slice_index sums.old i ≡ 0 }
    ensures { AreSummed weights.now.width (is_strong_pixel terms weights.now (open_at mask.now)) ((weights.now.height + 1) * (weights.now.width + 1)) sums.new }
{
    for y in 0..weights.height {
        sum_row(sums, terms, weights, mask, y);
    }
}

/// Sets the sums of the corners below row `y`.
fn sum_row(sums: &mut [u32], terms: ScreenTerms, weights: &Plane, mask: &Mask, y: u32)
    requires across { mask.now.width ≡ weights.now.width }
    requires along { mask.now.height ≡ weights.now.height }
    requires row { y < weights.now.height }
    requires full { length sums.old ≡ (weights.now.width + 1) * (weights.now.height + 1) }
    requires sums { AreSummed weights.now.width (is_strong_pixel terms weights.now (open_at mask.now)) ((y + 1) * (weights.now.width + 1)) sums.old }
    ensures { AreSummed weights.now.width (is_strong_pixel terms weights.now (open_at mask.now)) ((y + 1 + 1) * (weights.now.width + 1)) sums.new }
{
    let across = weights.width as usize + 1;
    let row = y as usize * across;
    let mut count = 0;
    for x in 0..weights.width {
        count += u32::from(is_strong(terms, weights, mask, x, y));
        let corner = row + x as usize + 1;
        sums[corner + across] = sums[corner] + count;
    }
}

/// Whether a pixel is open and has at least the weight of the terms.
fn is_strong(terms: ScreenTerms, weights: &Plane, mask: &Mask, x: u32, y: u32) -> bool
    requires across { mask.now.width ≡ weights.now.width }
    requires along { mask.now.height ≡ weights.now.height }
    requires pixel { (x < weights.now.width) × (y < weights.now.height) }
    ensures { result ≡ is_strong_pixel terms weights.now (open_at mask.now) x y }
{
    mask.is_open(x, y) && terms.weight <= weights.sample(x, y)
}

/// How many strong pixels lie near a pixel, by the sums of all corners.
pub fn near(sums: &[u32], extent: Extent, radius: u32, x: u32, y: u32) -> u32
    requires pixel { (x < extent.width) × (y < extent.height) }
    requires radius { radius ≤ max_radius }
    requires full { length sums.now ≡ (extent.width + 1) * (extent.height + 1) }
    requires sums { (test : Field Bool) × AreSummed extent.width test ((extent.height + 1) * (extent.width + 1)) sums.now }
    ensures value { (test : Field Bool) → AreSummed extent.width test ((extent.height + 1) * (extent.width + 1)) sums.now → result ≡ near_pixels radius extent.width extent.height test x y }
    ensures few { result ≤ max_near }
{
    let left = x.saturating_sub(radius);
    let right = (x + radius + 1).min(extent.width);
    let top = y.saturating_sub(radius);
    let bottom = (y + radius + 1).min(extent.height);
    let whole = sum_of(sums, extent, right, bottom) + sum_of(sums, extent, left, top);
    whole - sum_of(sums, extent, right, top) - sum_of(sums, extent, left, bottom)
}

/// The sum of a corner.
fn sum_of(sums: &[u32], extent: Extent, column: u32, row: u32) -> u32
    requires corner { (column ≤ extent.width) × (row ≤ extent.height) }
    requires full { length sums.now ≡ (extent.width + 1) * (extent.height + 1) }
    ensures { result ≡ slice_index sums.now (row * (extent.width + 1) + column) }
{
    sums[(row * (extent.width + 1) + column) as usize]
}
