ghost use Rattle.raster_model.specs.Sheets.{sheet_raster};
ghost use Rattle.raster_model.specs.Sums.{down_edge, right_edge};
ghost use Rattle.std.specs.Prelude.{◌≡◌, ◌+◌, ◌<◌, ◌≤◌, ◌-ℤ◌, int_div, pos, unsigned_abs};
ghost use Rattle.surface_integration.specs.Rows.{rise_of};
ghost use Rattle.wrapped_gradient.specs.Corrections.{HasShapeOf, greatest_of};
ghost use Rattle.wrapped_gradient.specs.Gradients.{AreGradientsOf};

use crate::limits::MAX_NARROW_CYCLES;
use raster_model::Sheet;
use wrapped_gradient::{Corrections, Gradients};

/// The cycles by which the right neighbour of a pixel is higher.
pub(crate) fn rise_right(
    sheet: &Sheet,
    gradients: &Gradients,
    corrections: &Corrections,
    x: u32,
    y: u32,
) -> i32
    requires gradients { AreGradientsOf (sheet_raster sheet.now) gradients.now }
    requires shape { HasShapeOf gradients.now.window corrections.now }
    requires small { greatest_of corrections.now < MAX_NARROW_CYCLES }
    requires across { (gradients.now.window.x0 ≤ x) × (x < gradients.now.window.x1) }
    requires along { (gradients.now.window.y0 ≤ y) × (y ≤ gradients.now.window.y1) }
    ensures value { result ≡ rise_of (sheet_raster sheet.now) gradients.now.window corrections.now (right_edge x y) }
    ensures small { unsigned_abs result ≤ greatest_of corrections.now + 1 }
{
    let window = gradients.window();
    let across = (window.x1 - window.x0) as usize;
    let place = (y - window.y0) as usize * across + (x - window.x0) as usize;
    let from = sheet.phase.sample(x, y);
    let to = sheet.phase.sample(x + 1, y);
    rise(from, to, gradients.right(x, y), corrections.right[place])
}

/// The cycles by which the lower neighbour of a pixel is higher.
pub(crate) fn rise_down(
    sheet: &Sheet,
    gradients: &Gradients,
    corrections: &Corrections,
    x: u32,
    y: u32,
) -> i32
    requires gradients { AreGradientsOf (sheet_raster sheet.now) gradients.now }
    requires shape { HasShapeOf gradients.now.window corrections.now }
    requires small { greatest_of corrections.now < MAX_NARROW_CYCLES }
    requires across { (gradients.now.window.x0 ≤ x) × (x ≤ gradients.now.window.x1) }
    requires along { (gradients.now.window.y0 ≤ y) × (y < gradients.now.window.y1) }
    ensures value { result ≡ rise_of (sheet_raster sheet.now) gradients.now.window corrections.now (down_edge x y) }
    ensures small { unsigned_abs result ≤ greatest_of corrections.now + 1 }
{
    let place = gradients.window().place(x, y);
    let from = sheet.phase.sample(x, y);
    let to = sheet.phase.sample(x, y + 1);
    rise(from, to, gradients.down(x, y), corrections.down[place])
}

/// The cycles by which a pixel is above its neighbour, for their phases, the wrapped difference and the
/// correction.
fn rise(from: u16, to: u16, gradient: i32, correction: i32) -> i32
    requires near { unsigned_abs (pos to -ℤ pos from -ℤ gradient) ≤ 131071 }
    requires small { unsigned_abs correction < MAX_NARROW_CYCLES }
    ensures value { result ≡ correction -ℤ int_div (pos to -ℤ pos from -ℤ gradient) (pos 65536) }
    ensures small { unsigned_abs result ≤ unsigned_abs correction + 1 }
{
    correction - (i32::from(to) - i32::from(from) - gradient) / 65536
}
