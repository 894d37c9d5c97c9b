ghost use Rattle.grid_writer.specs.Fits.{cycles_shown};
ghost use Rattle.grid_writer.specs.Grids.{value_at};
ghost use Rattle.raster_model.specs.Sums.{is_pixel};
ghost use Rattle.std.specs.Prelude.{◌≡◌, ◌↔◌, ◌*◌, ◌<◌, IfNone, IfSome, IsTrue, length};

use crate::values::NO_DATA;
use raster_model::{Heights, Mask, Sheet};

/// How many units make a cycle.
const CYCLE: i64 = 65_536;

/// A value for each pixel in row order, in units of 1/65536 cycle, over a sheet and a mask of its size. As heights it has the
/// whole cycles that the values show above the phase.
#[derive(Clone, Copy)]
pub struct ShownValues<'a> {
    pub sheet: &'a Sheet<'a>,
    pub mask: &'a Mask,
    pub values: &'a [i64],
    pub ghost mask_size: { (mask.now.width ≡ sheet.now.phase.now.width) × (mask.now.height ≡ sheet.now.phase.now.height) },
    pub ghost full: { length values.now ≡ sheet.now.phase.now.width * sheet.now.phase.now.height },
}

impl Heights for ShownValues<'_> {
    ghost knows = { λ s. is_pixel s.sheet.now.phase.now.width s.sheet.now.phase.now.height };

    ghost cycles_at = { λ s. cycles_shown (value_at s.sheet.now.phase.now.width s.values.now) };

    fn cycles(&self, x: u32, y: u32) -> i64 {
        self.value(x, y).div_euclid(CYCLE)
    }
}

impl ShownValues<'_> {
    ghost use Rattle.grid_writer.specs.Fits.{AllValuesFit, FitInRow, IsFirstUnfitInRow, IsFirstUnfitValue, ValueFits};
    ghost use Rattle.raster_model.specs.Masks.{open_at};
    ghost use Rattle.raster_model.specs.Sheets.{sheet_raster};

    /// The value at a pixel.
    pub fn value(&self, x: u32, y: u32) -> i64
        requires across { x < self.now.sheet.now.phase.now.width }
        requires along { y < self.now.sheet.now.phase.now.height }
        ensures { result ≡ value_at self.now.sheet.now.phase.now.width self.now.values.now x y }
    {
        let width = self.sheet.phase.width as usize;
        self.values[y as usize * width + x as usize]
    }

    /// The first pixel in row order whose value is not NODATA though it is masked, or is NODATA or not the phase up to
    /// whole cycles though it is open.
    pub fn first_unfit(&self) -> Option<(u32, u32)>
        ensures found { IfSome result (λ pixel. IsFirstUnfitValue (sheet_raster self.now.sheet.now) (open_at self.now.mask.now) (value_at self.now.sheet.now.phase.now.width self.now.values.now) pixel.0 pixel.1) }
        ensures none { IfNone result (AllValuesFit (sheet_raster self.now.sheet.now) (open_at self.now.mask.now) (value_at self.now.sheet.now.phase.now.width self.now.values.now)) }
    {
        for y in 0..self.sheet.phase.height {
            if let Some(x) = self.first_unfit_in(y) {
                return Some((x, y));
            }
        }
        None
    }

    /// The first such pixel of a row.
    fn first_unfit_in(&self, y: u32) -> Option<u32>
        requires { y < self.now.sheet.now.phase.now.height }
        ensures found { IfSome result (IsFirstUnfitInRow (sheet_raster self.now.sheet.now) (open_at self.now.mask.now) (value_at self.now.sheet.now.phase.now.width self.now.values.now) y) }
        ensures none { IfNone result (FitInRow (sheet_raster self.now.sheet.now) (open_at self.now.mask.now) (value_at self.now.sheet.now.phase.now.width self.now.values.now) y self.now.sheet.now.phase.now.width) }
    {
        for x in 0..self.sheet.phase.width {
            if !self.fits(x, y) {
                return Some(x);
            }
        }
        None
    }

    /// Whether the value at a pixel is NODATA if it is masked, and otherwise another, which is the phase up to whole
    /// cycles.
    fn fits(&self, x: u32, y: u32) -> bool
        requires across { x < self.now.sheet.now.phase.now.width }
        requires along { y < self.now.sheet.now.phase.now.height }
        ensures { IsTrue result ↔ ValueFits (sheet_raster self.now.sheet.now) (open_at self.now.mask.now) (value_at self.now.sheet.now.phase.now.width self.now.values.now) x y }
    {
        let value = self.value(x, y);
        if !self.mask.is_open(x, y) {
            return value == NO_DATA;
        }
        if value == NO_DATA {
            return false;
        }
        value.rem_euclid(CYCLE) == i64::from(self.sheet.phase.sample(x, y))
    }
}
