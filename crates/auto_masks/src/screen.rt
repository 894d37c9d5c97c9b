ghost use Rattle.auto_masks.specs.Screened.{AreScreenTerms, is_enough as is_enough_by, max_near};
ghost use Rattle.auto_masks.specs.declared.terms.ScreenTerms.{ScreenTerms as Terms};
ghost use Rattle.raster_model.specs.declared.limits.TheConstants.{MAX_WEIGHT};
ghost use Rattle.std.specs.Prelude.{◌≡◌, ◌<◌, ◌≤◌, ℕ, Bool};

use crate::extent::Extent;
use crate::keeping::keep_patches;
use crate::patches::Patches;
use crate::sums::{near, sum_strong};
use crate::terms::ScreenTerms;
use raster_model::{Mask, Plane};
use std::alloc::{AllocError, Global};

/// A closure from the weight of a pixel and the number of strong pixels near it to whether both are enough.
pub type EnoughTest = Box<dyn Fn(u16, u32) -> bool>;

/// A rule for first masks. A pixel is strong if it is open and its weight is at least that of the terms. A strong pixel
/// passes if enough strong pixels are near it, itself included. It stays open if its patch among the passing pixels is
/// large enough. The struct keeps a closure beside the fact that it tells which weights and numbers are enough.
#[derive(Drop)]
pub struct Screen {
    terms: ScreenTerms,
    is_enough: EnoughTest,
    ghost ranged: { AreScreenTerms terms },
    ghost called: { (weight count : ℕ) → weight ≤ MAX_WEIGHT → count ≤ max_near → EnoughTest.pre is_enough weight count },
    ghost answered: { (weight count : ℕ) (answer : Bool) → weight ≤ MAX_WEIGHT → count ≤ max_near → EnoughTest.post is_enough weight count answer → answer ≡ is_enough_by terms weight count },
}

impl Screen {
    ghost use Rattle.auto_masks.specs.Keys.{AreKeyed};
    ghost use Rattle.auto_masks.specs.Screened.{IsScreened, is_strong, passes};
    ghost use Rattle.auto_masks.specs.Sums.{AreSummed};
    ghost use Rattle.raster_model.specs.Masks.{open_at};
    ghost use Rattle.std.specs.Prelude.{◌+◌, ◌*◌, IfOk, length};

    /// The screen with these terms, and the closure that tells which weights and numbers of near strong pixels are
    /// enough for them.
    pub fn new(terms: ScreenTerms, is_enough: EnoughTest) -> Screen
        requires ranged { AreScreenTerms terms }
        requires called { (weight count : ℕ) → weight ≤ MAX_WEIGHT → count ≤ max_near → EnoughTest.pre is_enough weight count }
        requires answered { (weight count : ℕ) (answer : Bool) → weight ≤ MAX_WEIGHT → count ≤ max_near → EnoughTest.post is_enough weight count answer → answer ≡ is_enough_by terms weight count }
        ensures { result.terms ≡ terms }
    {
        Screen { terms, is_enough }
    }

    /// The mask that screening makes of a mask of the weight plane's size. It fails only for lack of memory.
    pub fn apply(&self, alloc: Global, weights: &Plane, mask: &Mask) -> Result<Mask, AllocError>
        requires across { mask.now.width ≡ weights.now.width }
        requires along { mask.now.height ≡ weights.now.height }
        ensures { IfOk result (λ made. IsScreened self.now.terms weights.now (open_at mask.now) made) }
    {
        let keys = self.key_pixels(alloc, weights, mask)?;
        let patches = Patches::of(alloc, mask.width(), mask.height(), &keys)?;
        let extent = Extent {
            width: weights.width,
            height: weights.height,
        };
        keep_patches(alloc, &patches, extent, self.terms.patch)
    }

    /// The keys of all pixels in row order: 1 for a pixel that passes, 0 for any other.
    fn key_pixels(
        &self,
        alloc: Global,
        weights: &Plane,
        mask: &Mask,
    ) -> Result<Vec<i64>, AllocError>
        requires across { mask.now.width ≡ weights.now.width }
        requires along { mask.now.height ≡ weights.now.height }
        ensures full { IfOk result (λ keys. length keys.items ≡ weights.now.width * weights.now.height) }
        ensures keyed { IfOk result (λ keys. AreKeyed self.now.terms weights.now (open_at mask.now) (weights.now.height * weights.now.width) keys.items) }
    {
        let sums = sum_strong(alloc, self.terms, weights, mask)?;
        let mut keys = vec![in alloc; 0; weights.width as usize * weights.height as usize]?;
        self.key_rows(&mut keys, &sums, weights, mask);
        Ok(keys)
    }

    /// Sets the keys of all pixels.
    fn key_rows(&self, keys: &mut [i64], sums: &[u32], weights: &Plane, mask: &Mask)
        requires across { mask.now.width ≡ weights.now.width }
        requires along { mask.now.height ≡ weights.now.height }
        requires full { length keys.old ≡ weights.now.width * weights.now.height }
        requires corners { length sums.now ≡ (weights.now.width + 1) * (weights.now.height + 1) }
        requires sums { AreSummed weights.now.width (is_strong self.now.terms weights.now (open_at mask.now)) ((weights.now.height + 1) * (weights.now.width + 1)) sums.now }
        ensures { AreKeyed self.now.terms weights.now (open_at mask.now) (weights.now.height * weights.now.width) keys.new }
    {
        for y in 0..weights.height {
            self.key_row(keys, sums, weights, mask, y);
        }
    }

    /// Sets the keys of the pixels of row `y`.
    fn key_row(&self, keys: &mut [i64], sums: &[u32], weights: &Plane, mask: &Mask, y: u32)
        requires across { mask.now.width ≡ weights.now.width }
        requires along { mask.now.height ≡ weights.now.height }
        requires row { y < weights.now.height }
        requires full { length keys.old ≡ weights.now.width * weights.now.height }
        requires corners { length sums.now ≡ (weights.now.width + 1) * (weights.now.height + 1) }
        requires sums { AreSummed weights.now.width (is_strong self.now.terms weights.now (open_at mask.now)) ((weights.now.height + 1) * (weights.now.width + 1)) sums.now }
        requires keyed { AreKeyed self.now.terms weights.now (open_at mask.now) (y * weights.now.width) keys.old }
        ensures { AreKeyed self.now.terms weights.now (open_at mask.now) ((y + 1) * weights.now.width) keys.new }
    {
        let row = y as usize * weights.width as usize;
        for x in 0..weights.width {
            keys[row + x as usize] = i64::from(self.is_passing(sums, weights, mask, x, y));
        }
    }

    /// Whether a pixel is strong and enough strong pixels are near it. The closure is asked of open pixels alone.
    fn is_passing(&self, sums: &[u32], weights: &Plane, mask: &Mask, x: u32, y: u32) -> bool
        requires across { mask.now.width ≡ weights.now.width }
        requires along { mask.now.height ≡ weights.now.height }
        requires pixel { (x < weights.now.width) × (y < weights.now.height) }
        requires corners { length sums.now ≡ (weights.now.width + 1) * (weights.now.height + 1) }
        requires sums { AreSummed weights.now.width (is_strong self.now.terms weights.now (open_at mask.now)) ((weights.now.height + 1) * (weights.now.width + 1)) sums.now }
        ensures { result ≡ passes self.now.terms weights.now (open_at mask.now) x y }
    {
        if !mask.is_open(x, y) {
            return false;
        }
        let extent = Extent {
            width: weights.width,
            height: weights.height,
        };
        let count = near(sums, extent, self.terms.radius, x, y);
        (self.is_enough)(weights.sample(x, y), count)
    }
}
