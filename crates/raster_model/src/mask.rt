ghost use Rattle.raster_model.specs.Limits.{max_side};
ghost use Rattle.raster_model.specs.MaskWords.{IsWordOf, bit_of as bit_of_pixel, words_across as words_of};
ghost use Rattle.std.specs.Prelude.{◌≡◌, ◌<◌, ◌≤◌};

use crate::bits::{are_all_ones, has_bit, set_bits, word_of};
use crate::plane::Plane;
use std::alloc::{AllocError, Global};
use std::marker::Model;

/// Which pixels of a raster are open; the others are masked.
#[derive(Drop)]
pub struct Mask {
    width: u32,
    height: u32,
    /// A bit for each pixel, 1 if it is open. Each row begins with a new word, and the first pixel of a
    /// word is its lowest bit. The bits after the end of a row may be 0 or 1.
    words: Vec<u64>,
}

impl Model for Mask {
    ghost use Rattle.raster_model.specs.Limits.{max_pixels, max_side};
    ghost use Rattle.raster_model.specs.MaskView.{MaskView};
    ghost use Rattle.raster_model.specs.MaskWords.{pixels_of, words_across};
    ghost use Rattle.std.specs.Prelude.{◌≡◌, ◌*◌, ◌≤◌, vec_len};

    ghost Value = { MaskView };

    ghost view = { λ m. record { width = m.width; height = m.height; unmasked = pixels_of m.width m.height m.words.items } };

    ghost invariant = { λ m. (1 ≤ m.width) × (m.width ≤ max_side) × (1 ≤ m.height) × (m.height ≤ max_side) × (m.width * m.height ≤ max_pixels) × (vec_len m.words ≡ words_across m.width * m.height) };
}

/// Words in a row of pixels.
fn words_across(width: u32) -> usize
    ensures { result ≡ words_of width }
{
    (width as usize + 63) / 64
}

/// The bit of a pixel, among the bits of all words.
fn bit_of(width: u32, x: u32, y: u32) -> usize
    requires across { (x < width) × (width ≤ max_side) }
    requires along { y < max_side }
    ensures { result ≡ bit_of_pixel width x y }
{
    y as usize * (words_across(width) * 64) + x as usize
}

/// The word at a place of row `y`, made of a mask plane.
fn plane_word(plane: &Plane, y: usize, place: usize) -> u64
    requires row { y < plane.now.height }
    requires place { place < words_of plane.now.width }
    ensures { IsWordOf plane.now y place result }
{
    let row = y * plane.width as usize;
    let x = place * 64;
    word_of(
        &plane.samples,
        row + x,
        row + (x + 64).min(plane.width as usize),
    )
}

impl Mask {
    ghost use Rattle.raster_model.specs.Limits.{is_raster_size};
    ghost use Rattle.raster_model.specs.Masks.{open_at, all_open as everywhere, open_by, IsMaskOf, IsSetAt, IsSpanOf, IsSpanSet, HasOtherInSpan};
    ghost use Rattle.std.specs.Prelude.{◌≡◌, ◌*◌, ◌<◌, ◌≤◌, ◌↔◌, IfOk, IsTrue, MatchBool, length, true};

    /// The mask with every pixel open.
    pub fn all_open(alloc: Global, width: u32, height: u32) -> Result<Mask, AllocError>
        requires { IsTrue (is_raster_size width height) }
        ensures { IfOk result (λ mask. IsMaskOf mask width height everywhere) }
    {
        let words = vec![in alloc; u64::MAX; words_across(width) * height as usize]?;
        Ok(Mask {
            width,
            height,
            words,
        })
    }

    /// The mask of a mask plane: a pixel whose sample is 0 is masked, and any other is open.
    pub fn of_plane(alloc: Global, plane: &Plane) -> Result<Mask, AllocError>
        ensures { IfOk result (λ mask. IsMaskOf mask plane.now.width plane.now.height (open_by plane.now)) }
    {
        let across = words_across(plane.width);
        let count = across * plane.height as usize;
        let mut words = Vec::with_capacity(alloc, count)?;
        for place in 0..count {
            words.push(plane_word(plane, place / across, place % across))?;
        }
        Ok(Mask {
            width: plane.width,
            height: plane.height,
            words,
        })
    }

    /// A separate copy.
    pub fn try_copy(&self, alloc: Global) -> Result<Mask, AllocError>
        ensures { IfOk result (λ mask. mask ≡ self.now) }
    {
        let mut words = Vec::with_capacity(alloc, self.words.len())?;
        words.extend_from_slice(&self.words)?;
        Ok(Mask {
            width: self.width,
            height: self.height,
            words,
        })
    }

    /// Pixels in a row.
    pub fn width(&self) -> u32
        ensures value { result ≡ self.now.width }
        ensures size { IsTrue (is_raster_size self.now.width self.now.height) }
        ensures pixels { length self.now.unmasked ≡ self.now.width * self.now.height }
    {
        self.width
    }

    /// Rows.
    pub fn height(&self) -> u32
        ensures value { result ≡ self.now.height }
        ensures size { IsTrue (is_raster_size self.now.width self.now.height) }
    {
        self.height
    }

    /// Whether a pixel is open.
    pub fn is_open(&self, x: u32, y: u32) -> bool
        requires across { x < self.now.width }
        requires along { y < self.now.height }
        ensures { result ≡ open_at self.now x y }
    {
        has_bit(&self.words, bit_of(self.width, x, y))
    }

    /// Whether each pixel of row `y` from `x0` to `x1`, both included, is open.
    pub fn is_open_span(&self, y: u32, x0: u32, x1: u32) -> bool
        requires order { x0 ≤ x1 }
        requires across { x1 < self.now.width }
        requires along { y < self.now.height }
        ensures { IsTrue result ↔ IsSpanOf self.now y x0 x1 true }
    {
        let first = bit_of(self.width, x0, y);
        let last = bit_of(self.width, x1, y);
        are_all_ones(&self.words, first, last)
    }

    /// Opens or masks a pixel.
    pub fn set(&mut self, x: u32, y: u32, unmasked: bool)
        requires across { x < self.old.width }
        requires along { y < self.old.height }
        ensures { IsSetAt self.old self.new x y unmasked }
    {
        self.set_span(y, x, x, unmasked);
    }

    /// Opens or masks the pixels of row `y` from `x0` to `x1`, both included. Answers whether a pixel changed.
    pub fn set_span(&mut self, y: u32, x0: u32, x1: u32, unmasked: bool) -> bool
        requires order { x0 ≤ x1 }
        requires across { x1 < self.old.width }
        requires along { y < self.old.height }
        ensures set { IsSpanSet self.old self.new y x0 x1 unmasked }
        ensures changed { MatchBool result (HasOtherInSpan self.old y x0 x1 unmasked) (IsSpanOf self.old y x0 x1 unmasked) }
    {
        let first = bit_of(self.width, x0, y);
        let last = bit_of(self.width, x1, y);
        set_bits(&mut self.words, first, last, unmasked)
    }
}
