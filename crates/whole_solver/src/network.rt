ghost use Rattle.dual_grid.specs.Answers.{AreCertifiedOver};
ghost use Rattle.dual_grid.specs.Starts.{TellsMask};
ghost use Rattle.raster_model.specs.Masks.{open_at};
ghost use Rattle.raster_model.specs.Sheets.{sheet_raster};
ghost use Rattle.raster_model.specs.Sums.{Field};
ghost use Rattle.raster_model.specs.Tiles.{height_of, width_of};
ghost use Rattle.raster_model.specs.Whole.{IsCertifiedWhole};
ghost use Rattle.std.specs.Prelude.{◌≡◌, ◌*◌, Bool, IfOk, length, pos, vec_len};
ghost use Rattle.surface_integration.specs.Cycles.{LieWithin, cycles_at};
ghost use Rattle.whole_solver.specs.Solved.{listed_surface, raster_window as window_of_raster};
ghost use Rattle.wrapped_gradient.specs.Gradients.{AreGradientsOf};

use crate::limits::MAX_UNMOVED_CYCLES;
use network_solver::{network_corrections, network_corrections_from};
use raster_model::{Mask, Sheet, Window};
use std::alloc::{AllocError, Global};
use surface_integration::integrate_wide;
use whole_guess::Reached;
use wrapped_gradient::{Corrections, Gradients};

/// A surface over the whole raster, with the faces that certify it.
#[derive(Drop)]
pub(crate) struct WholeSurface {
    /// Whole cycles above the phase, one number for each pixel in row order.
    pub(crate) cycles: Vec<i64>,
    /// The faces of the raster's cells in row order. A raster one pixel wide or high has none.
    pub(crate) faces: Vec<i64>,
}

/// Solves the whole raster of a sheet as one tile, by its network, from what was reached, if anything was. The mask has the
/// sheet's size. The faces certify the surface, so no congruent surface costs less. The first pixel has 0 cycles, and none has
/// more than 2^45. It fails only for lack of memory. (Costantini 1998.)
pub(crate) fn solve_by_network(
    alloc: Global,
    sheet: &Sheet,
    mask: &Mask,
    reached: Option<Reached>,
) -> Result<WholeSurface, AllocError>
    requires across { mask.now.width ≡ sheet.now.phase.now.width }
    requires along { mask.now.height ≡ sheet.now.phase.now.height }
    ensures count { IfOk result (λ solved. vec_len solved.cycles ≡ sheet.now.phase.now.width * sheet.now.phase.now.height) }
    ensures first { IfOk result (λ solved. cycles_at (window_of_raster (sheet_raster sheet.now)) solved.cycles.items 0 0 ≡ pos 0) }
    ensures certified { IfOk result (λ solved. IsCertifiedWhole (sheet_raster sheet.now) (open_at mask.now) (listed_surface (sheet_raster sheet.now) solved.cycles.items) solved.faces.items) }
    ensures within { IfOk result (λ solved. LieWithin (window_of_raster (sheet_raster sheet.now)) (cycles_at (window_of_raster (sheet_raster sheet.now)) solved.cycles.items) MAX_UNMOVED_CYCLES) }
{
    let gradients = Gradients::over(alloc, sheet, raster_window(sheet))?;
    let unmasked = open_pixels(alloc, sheet, mask)?;
    let (corrections, faces) = least_corrections(alloc, sheet, &gradients, &unmasked, reached)?;
    let cycles = integrate_wide(alloc, sheet, &gradients, &corrections)?;
    Ok(WholeSurface { cycles, faces })
}

/// Corrections of a window's edges that cancel its residues at least cost, and the faces that certify them, from what was
/// reached, if anything was.
fn least_corrections(
    alloc: Global,
    sheet: &Sheet,
    gradients: &Gradients,
    unmasked: &[bool],
    reached: Option<Reached>,
) -> Result<(Corrections, Vec<i64>), AllocError>
    requires gradients { AreGradientsOf (sheet_raster sheet.now) gradients.now }
    requires count { length unmasked.now ≡ width_of gradients.now.window * height_of gradients.now.window }
    ensures { IfOk result (λ made. (mask : Field Bool) → TellsMask gradients.now.window unmasked.now mask → AreCertifiedOver (sheet_raster sheet.now) mask gradients.now.window made.0 made.1.items) }
{
    match reached {
        None => network_corrections(alloc, sheet, gradients, unmasked),
        Some(Reached { right, down, faces }) => {
            let flows = Corrections { right, down };
            network_corrections_from(alloc, sheet, gradients, unmasked, flows, &faces)
        }
    }
}

/// The window of the whole raster.
fn raster_window(sheet: &Sheet) -> Window
    ensures { result ≡ window_of_raster (sheet_raster sheet.now) }
{
    Window {
        x0: 0,
        y0: 0,
        x1: sheet.phase.width - 1,
        y1: sheet.phase.height - 1,
    }
}

/// For each pixel in row order, whether it is open.
fn open_pixels(alloc: Global, sheet: &Sheet, mask: &Mask) -> Result<Vec<bool>, AllocError>
    requires across { mask.now.width ≡ sheet.now.phase.now.width }
    requires along { mask.now.height ≡ sheet.now.phase.now.height }
    ensures count { IfOk result (λ list. length list.items ≡ sheet.now.phase.now.width * sheet.now.phase.now.height) }
    ensures told { IfOk result (λ list. TellsMask (window_of_raster (sheet_raster sheet.now)) list.items (open_at mask.now)) }
{
    let width = sheet.phase.width;
    let pixels = width * sheet.phase.height;
    let mut list = Vec::with_capacity(alloc, pixels as usize)?;
    for place in 0..pixels {
        list.push(mask.is_open(place % width, place / width))?;
    }
    Ok(list)
}
