ghost use Rattle.auto_masks.specs.Keeping.{AreScreenedSoFar, is_large as is_large_patch};
ghost use Rattle.raster_model.specs.Limits.{is_raster_size};
ghost use Rattle.raster_model.specs.Masks.{IsMaskOf};
ghost use Rattle.std.specs.Prelude.{◌≡◌, ◌+◌, ◌*◌, ◌<◌, IfOk, IsTrue};

use crate::extent::Extent;
use crate::patches::Patches;
use raster_model::Mask;
use std::alloc::{AllocError, Global};

/// The mask that is open at the pixels of patches that have at least `least` pixels.
pub fn keep_patches(
    alloc: Global,
    patches: &Patches,
    extent: Extent,
    least: u32,
) -> Result<Mask, AllocError>
    requires limits { IsTrue (is_raster_size extent.width extent.height) }
    requires across { patches.now.width ≡ extent.width }
    requires along { patches.now.height ≡ extent.height }
    ensures { IfOk result (λ kept. IsMaskOf kept extent.width extent.height (is_large_patch patches.now least)) }
{
    let mut kept = Mask::all_open(alloc, extent.width, extent.height)?;
    keep_rows(&mut kept, patches, extent, least);
    Ok(kept)
}

/// Masks the pixels of an open mask that are in no such patch.
fn keep_rows(kept: &mut Mask, patches: &Patches, extent: Extent, least: u32)
    requires across { patches.now.width ≡ extent.width }
    requires along { patches.now.height ≡ extent.height }
    requires kept { AreScreenedSoFar patches.now least 0 kept.old }
    ensures { AreScreenedSoFar patches.now least (patches.now.height * patches.now.width) kept.new }
{
    for y in 0..extent.height {
        keep_row(kept, patches, extent, least, y);
    }
}

/// The same for the pixels of row `y`.
fn keep_row(kept: &mut Mask, patches: &Patches, extent: Extent, least: u32, y: u32)
    requires across { patches.now.width ≡ extent.width }
    requires along { patches.now.height ≡ extent.height }
    requires row { y < extent.height }
    requires kept { AreScreenedSoFar patches.now least (y * patches.now.width) kept.old }
    ensures { AreScreenedSoFar patches.now least ((y + 1) * patches.now.width) kept.new }
{
    for x in 0..extent.width {
        keep_pixel(kept, patches, least, x, y);
    }
}

/// Masks a pixel if it is in no such patch.
fn keep_pixel(kept: &mut Mask, patches: &Patches, least: u32, x: u32, y: u32)
    requires pixel { (x < patches.now.width) × (y < patches.now.height) }
    requires kept { AreScreenedSoFar patches.now least (y * patches.now.width + x) kept.old }
    ensures { AreScreenedSoFar patches.now least (y * patches.now.width + x + 1) kept.new }
{
    if !is_large(patches, least, x, y) {
        kept.set(x, y, false);
    }
}

/// Whether a pixel is in a patch of at least `least` pixels.
fn is_large(patches: &Patches, least: u32, x: u32, y: u32) -> bool
    requires { (x < patches.now.width) × (y < patches.now.height) }
    ensures { result ≡ is_large_patch patches.now least x y }
{
    match patches.label(x, y) {
        Some(label) => least <= patches.size(label),
        None => false,
    }
}
