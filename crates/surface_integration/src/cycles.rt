ghost use Rattle.raster_model.specs.Scene.{raster_of};
ghost use Rattle.raster_model.specs.Sheets.{sheet_raster};
ghost use Rattle.raster_model.specs.Tiles.{width_of, height_of};
ghost use Rattle.std.specs.Prelude.{◌≡◌, ◌*◌, ◌<◌, IfOk, pos, vec_len};
ghost use Rattle.surface_integration.specs.Cycles.{AreSmall, DepartBy, LieWithin, StaySmall, cycles_at};
ghost use Rattle.wrapped_gradient.specs.Corrections.{CancelResidues, HasShapeOf, greatest_of};
ghost use Rattle.wrapped_gradient.specs.Gradients.{AreGradientsOf};

use crate::limits::MAX_NARROW_CYCLES;
use crate::rows::integrated;
use raster_model::{MAX_REACHED_CYCLES, Scene, Sheet};
use std::alloc::{AllocError, Global};
use wrapped_gradient::{Corrections, Gradients};

/// Whole cycles above the phase, one number for each pixel of the gradients' window in row order, and 0 at its
/// first pixel. The surface of the phase and 65,536 units for each cycle departs from the wrapped difference of
/// each edge of the window by the edge's correction. The first column is filled downwards, and from it each row
/// rightwards. (Costantini 1998.)
pub fn integrate(
    alloc: Global,
    scene: &Scene,
    gradients: &Gradients,
    corrections: &Corrections,
) -> Result<Vec<i32>, AllocError>
    requires gradients { AreGradientsOf (raster_of scene.now) gradients.now }
    requires shape { HasShapeOf gradients.now.window corrections.now }
    requires cancel { CancelResidues (raster_of scene.now) gradients.now.window corrections.now }
    requires small { AreSmall gradients.now.window corrections.now }
    ensures count { IfOk result (λ cycles. vec_len cycles ≡ width_of gradients.now.window * height_of gradients.now.window) }
    ensures first { IfOk result (λ cycles. cycles_at gradients.now.window cycles.items gradients.now.window.x0 gradients.now.window.y0 ≡ pos 0) }
    ensures departs { IfOk result (λ cycles. DepartBy (raster_of scene.now) gradients.now.window (cycles_at gradients.now.window cycles.items) corrections.now) }
    ensures bounded { IfOk result (λ cycles. StaySmall gradients.now.window (cycles_at gradients.now.window cycles.items) (greatest_of corrections.now)) }
{
    integrated(alloc, &scene.sheet(), gradients, corrections)
}

/// Whole cycles above the phase as `integrate` gives them, at 64 bits: over windows up to a whole raster, and for any
/// corrections that leave room for one more cycle at 32 bits. None is above 2^48 on either side of 0. (Costantini 1998.)
pub fn integrate_wide(
    alloc: Global,
    sheet: &Sheet,
    gradients: &Gradients,
    corrections: &Corrections,
) -> Result<Vec<i64>, AllocError>
    requires gradients { AreGradientsOf (sheet_raster sheet.now) gradients.now }
    requires shape { HasShapeOf gradients.now.window corrections.now }
    requires cancel { CancelResidues (sheet_raster sheet.now) gradients.now.window corrections.now }
    requires small { greatest_of corrections.now < MAX_NARROW_CYCLES }
    ensures count { IfOk result (λ cycles. vec_len cycles ≡ width_of gradients.now.window * height_of gradients.now.window) }
    ensures first { IfOk result (λ cycles. cycles_at gradients.now.window cycles.items gradients.now.window.x0 gradients.now.window.y0 ≡ pos 0) }
    ensures departs { IfOk result (λ cycles. DepartBy (sheet_raster sheet.now) gradients.now.window (cycles_at gradients.now.window cycles.items) corrections.now) }
    ensures bounded { IfOk result (λ cycles. StaySmall gradients.now.window (cycles_at gradients.now.window cycles.items) (greatest_of corrections.now)) }
    ensures within { IfOk result (λ cycles. LieWithin gradients.now.window (cycles_at gradients.now.window cycles.items) (MAX_REACHED_CYCLES)) }
{
    integrated(alloc, sheet, gradients, corrections)
}
