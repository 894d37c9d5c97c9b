ghost use Rattle.raster_model.specs.Masks.{open_at, IsSpanOf};
ghost use Rattle.seam_regions.specs.Flood.{HasJoined, HasNumbered};
ghost use Rattle.seam_regions.specs.Regions.{most_regions};
ghost use Rattle.std.specs.Prelude.{◌≡◌, ◌+◌, ◌*◌, ◌<◌, ◌≤◌, IsTrue, true};

use joined_cells::number_place;
use raster_model::{Mask, Tiling};

/// Replaces each pixel's parent by the number of its tree, or by `u32::MAX` if the pixel is masked. Trees are numbered
/// from 0 in the order of their roots. The result is how many numbers are given.
pub fn number_all(labels: &mut [u32], tiling: &Tiling, mask: &Mask) -> u32
    requires across { mask.now.width ≡ tiling.now.width }
    requires along { mask.now.height ≡ tiling.now.height }
    requires flood { HasJoined tiling.now (open_at mask.now) (2 * (tiling.now.height * tiling.now.width)) labels.old }
    ensures numbers { HasNumbered tiling.now (open_at mask.now) (tiling.now.height * tiling.now.width) result labels.new }
    ensures few { result ≤ most_regions }
{
    let mut count = 0;
    for y in 0..tiling.height {
        count = number_row(labels, tiling, mask, y, count);
    }
    count
}

/// Numbers the pixels of row `y`. `count` numbers were given before; the result is how many are given in all.
fn number_row(labels: &mut [u32], tiling: &Tiling, mask: &Mask, y: u32, count: u32) -> u32
    requires across { mask.now.width ≡ tiling.now.width }
    requires along { mask.now.height ≡ tiling.now.height }
    requires row { y < tiling.now.height }
    requires numbers { HasNumbered tiling.now (open_at mask.now) (y * tiling.now.width) count labels.old }
    ensures { HasNumbered tiling.now (open_at mask.now) ((y + 1) * tiling.now.width) result labels.new }
{
    let mut given = count;
    let mut first = 0;
    while first < tiling.width {
        // 64 pixels are one word of the mask, or two
        let end = (first + 64).min(tiling.width);
        given = number_span(labels, tiling, mask, y, first, end - 1, given);
        first = end;
    }
    given
}

/// Numbers the pixels of row `y` from `first` to `last`, both included.
fn number_span(
    labels: &mut [u32],
    tiling: &Tiling,
    mask: &Mask,
    y: u32,
    first: u32,
    last: u32,
    count: u32,
) -> u32
    requires across { mask.now.width ≡ tiling.now.width }
    requires along { mask.now.height ≡ tiling.now.height }
    requires row { y < tiling.now.height }
    requires span { (first ≤ last) × (last < tiling.now.width) }
    requires numbers { HasNumbered tiling.now (open_at mask.now) (y * tiling.now.width + first) count labels.old }
    ensures { HasNumbered tiling.now (open_at mask.now) (y * tiling.now.width + last + 1) result labels.new }
{
    if mask.is_open_span(y, first, last) {
        number_open(labels, tiling, mask, y, first, last, count)
    } else {
        number_pixels(labels, tiling, mask, y, first, last, count)
    }
}

/// Numbers the pixels of row `y` from `first` to `last`, all of which are open.
fn number_open(
    labels: &mut [u32],
    tiling: &Tiling,
    mask: &Mask,
    y: u32,
    first: u32,
    last: u32,
    count: u32,
) -> u32
    requires row { y < tiling.now.height }
    requires span { (first ≤ last) × (last < tiling.now.width) }
    requires open { IsSpanOf mask.now y first last true }
    requires numbers { HasNumbered tiling.now (open_at mask.now) (y * tiling.now.width + first) count labels.old }
    ensures { HasNumbered tiling.now (open_at mask.now) (y * tiling.now.width + last + 1) result labels.new }
{
    let mut given = count;
    for x in first..last + 1 {
        given = number_open_pixel(labels, tiling, mask, x, y, given);
    }
    given
}

/// Numbers the pixels of row `y` from `first` to `last` one by one.
fn number_pixels(
    labels: &mut [u32],
    tiling: &Tiling,
    mask: &Mask,
    y: u32,
    first: u32,
    last: u32,
    count: u32,
) -> u32
    requires across { mask.now.width ≡ tiling.now.width }
    requires along { mask.now.height ≡ tiling.now.height }
    requires row { y < tiling.now.height }
    requires span { (first ≤ last) × (last < tiling.now.width) }
    requires numbers { HasNumbered tiling.now (open_at mask.now) (y * tiling.now.width + first) count labels.old }
    ensures { HasNumbered tiling.now (open_at mask.now) (y * tiling.now.width + last + 1) result labels.new }
{
    let mut given = count;
    for x in first..last + 1 {
        given = number_pixel(labels, tiling, mask, x, y, given);
    }
    given
}

/// Numbers one pixel.
fn number_pixel(labels: &mut [u32], tiling: &Tiling, mask: &Mask, x: u32, y: u32, count: u32) -> u32
    requires across { mask.now.width ≡ tiling.now.width }
    requires along { mask.now.height ≡ tiling.now.height }
    requires pixel { (x < tiling.now.width) × (y < tiling.now.height) }
    requires numbers { HasNumbered tiling.now (open_at mask.now) (y * tiling.now.width + x) count labels.old }
    ensures { HasNumbered tiling.now (open_at mask.now) (y * tiling.now.width + x + 1) result labels.new }
{
    if mask.is_open(x, y) {
        return number_open_pixel(labels, tiling, mask, x, y, count);
    }
    labels[(y * tiling.width + x) as usize] = u32::MAX;
    count
}

/// Numbers an open pixel.
fn number_open_pixel(
    labels: &mut [u32],
    tiling: &Tiling,
    mask: &Mask,
    x: u32,
    y: u32,
    count: u32,
) -> u32
    requires pixel { (x < tiling.now.width) × (y < tiling.now.height) }
    requires open { IsTrue (open_at mask.now x y) }
    requires numbers { HasNumbered tiling.now (open_at mask.now) (y * tiling.now.width + x) count labels.old }
    ensures { HasNumbered tiling.now (open_at mask.now) (y * tiling.now.width + x + 1) result labels.new }
{
    number_place(labels, (y * tiling.width + x) as usize, count)
}
