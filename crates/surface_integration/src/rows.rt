ghost use Rattle.raster_model.specs.Sheets.{sheet_raster};
ghost use Rattle.raster_model.specs.Tiles.{width_of, height_of};
ghost use Rattle.std.specs.Prelude.{◌≡◌, ◌+◌, ◌-◌, ◌*◌, ◌<◌, ◌≤◌, IfOk, OnOk, map, unsigned_abs};
ghost use Rattle.surface_integration.specs.Rows.{AreIntegrated, IsRowAdded};
ghost use Rattle.wrapped_gradient.specs.Corrections.{CancelResidues, HasShapeOf, greatest_of};
ghost use Rattle.wrapped_gradient.specs.Gradients.{AreGradientsOf};

use crate::limits::MAX_NARROW_CYCLES;
use crate::number::CycleNumber;
use crate::rises::{rise_down, rise_right};
use raster_model::Sheet;
use std::alloc::{AllocError, Global};
use wrapped_gradient::{Corrections, Gradients};

/// The cycles of all pixels of the gradients' window, in row order. They are added up at 64 bits, of which as many are kept as
/// there is room for.
pub(crate) fn integrated<N: CycleNumber>(
    alloc: Global,
    sheet: &Sheet,
    gradients: &Gradients,
    corrections: &Corrections,
) -> Result<Vec<N>, AllocError>
    requires gradients { AreGradientsOf (sheet_raster sheet.now) gradients.now }
    requires shape { HasShapeOf gradients.now.window corrections.now }
    requires cancel { CancelResidues (sheet_raster sheet.now) gradients.now.window corrections.now }
    requires small { greatest_of corrections.now < MAX_NARROW_CYCLES }
    requires room { (width_of gradients.now.window + height_of gradients.now.window) * (greatest_of corrections.now + 1) ≤ N.limit }
    ensures { IfOk result (λ cycles. AreIntegrated (sheet_raster sheet.now) gradients.now.window corrections.now (map N.value cycles.items)) }
{
    let window = gradients.window();
    let pixels = window.width() as usize * window.height() as usize;
    let mut cycles = Vec::with_capacity(alloc, pixels)?;
    let mut first = 0;
    push_row(sheet, gradients, corrections, window.y0, first, &mut cycles)?;
    for y in window.y0..window.y1 {
        first += i64::from(rise_down(sheet, gradients, corrections, window.x0, y));
        push_row(sheet, gradients, corrections, y + 1, first, &mut cycles)?;
    }
    Ok(cycles)
}

/// Appends the cycles of row `y`, which begins with `first`.
fn push_row<N: CycleNumber>(
    sheet: &Sheet,
    gradients: &Gradients,
    corrections: &Corrections,
    y: u32,
    first: i64,
    cycles: &mut Vec<N>,
) -> Result<(), AllocError>
    requires gradients { AreGradientsOf (sheet_raster sheet.now) gradients.now }
    requires shape { HasShapeOf gradients.now.window corrections.now }
    requires small { greatest_of corrections.now < MAX_NARROW_CYCLES }
    requires room { (width_of gradients.now.window + height_of gradients.now.window) * (greatest_of corrections.now + 1) ≤ N.limit }
    requires row { (gradients.now.window.y0 ≤ y) × (y ≤ gradients.now.window.y1) }
    requires near { unsigned_abs first ≤ (y - gradients.now.window.y0) * (greatest_of corrections.now + 1) }
    ensures { OnOk result (IsRowAdded (sheet_raster sheet.now) gradients.now.window corrections.now y (gradients.now.window.x1 - gradients.now.window.x0) first (map N.value cycles.old.items) (map N.value cycles.new.items)) }
{
    let window = gradients.window();
    let mut here = first;
    cycles.push(N::of(here))?;
    for x in window.x0..window.x1 {
        here += i64::from(rise_right(sheet, gradients, corrections, x, y));
        cycles.push(N::of(here))?;
    }
    Ok(())
}
