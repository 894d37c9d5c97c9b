ghost use Rattle.grid_writer.specs.Grids.{value_at};
ghost use Rattle.raster_model.specs.Masks.{open_at};
ghost use Rattle.raster_model.specs.Sheets.{sheet_raster};
ghost use Rattle.raster_model.specs.Seams.{IsEarlier, IsFirstOpen};
ghost use Rattle.std.specs.Prelude.{◌≡◌, ◌≢◌, ◌↔◌, ℕ, IfNone, IfSome, IsTrue, pos};
ghost use Rattle.whole_check.specs.Verdicts.{AllValuesStand, IsFirstFalseValue};

use grid_writer::ShownValues;

/// The first pixel in row order whose value does not fit its mask and its phase, or is not the phase though the pixel is the
/// first open one.
pub(crate) fn first_false_value(values: &ShownValues<'_>) -> Option<(u32, u32)>
    ensures found { IfSome result (λ pixel. IsFirstFalseValue (sheet_raster values.now.sheet.now) (open_at values.now.mask.now) (value_at values.now.sheet.now.phase.now.width values.now.values.now) pixel.0 pixel.1) }
    ensures none { IfNone result (AllValuesStand (sheet_raster values.now.sheet.now) (open_at values.now.mask.now) (value_at values.now.sheet.now.phase.now.width values.now.values.now)) }
{
    let unfit = values.first_unfit();
    let Some(anchor) = off_anchor(values) else {
        return unfit;
    };
    match unfit {
        Some(pixel) if is_earlier(pixel, anchor) => Some(pixel),
        _ => Some(anchor),
    }
}

/// The first open pixel in row order, if its value is not the phase.
fn off_anchor(values: &ShownValues<'_>) -> Option<(u32, u32)>
    ensures found { IfSome result (λ pixel. IsFirstOpen (sheet_raster values.now.sheet.now) (open_at values.now.mask.now) pixel.0 pixel.1 × (value_at values.now.sheet.now.phase.now.width values.now.values.now pixel.0 pixel.1 ≢ pos ((sheet_raster values.now.sheet.now).phase pixel.0 pixel.1))) }
    ensures none { IfNone result ((x y : ℕ) → IsFirstOpen (sheet_raster values.now.sheet.now) (open_at values.now.mask.now) x y → value_at values.now.sheet.now.phase.now.width values.now.values.now x y ≡ pos ((sheet_raster values.now.sheet.now).phase x y)) }
{
    let (x, y) = values.sheet.first_open(values.mask)?;
    let phase = i64::from(values.sheet.phase.sample(x, y));
    if values.value(x, y) == phase {
        None
    } else {
        Some((x, y))
    }
}

/// Whether a pixel comes before another in row order.
fn is_earlier(pixel: (u32, u32), other: (u32, u32)) -> bool
    ensures { IsTrue result ↔ IsEarlier pixel.0 pixel.1 other.0 other.1 }
{
    pixel.1 < other.1 || (pixel.1 == other.1 && pixel.0 < other.0)
}
