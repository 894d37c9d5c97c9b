ghost use Rattle.dual_grid.specs.Building.{IsMadeFor};
ghost use Rattle.dual_grid.specs.Nodes.{cells_of};
ghost use Rattle.dual_grid.specs.Problems.{down_edge_weights, right_edge_weights};
ghost use Rattle.std.specs.Prelude.{◌*◌, ◌-◌, ◌≤◌, ℕ, IfOk, get_or, pos, unsigned_abs};
ghost use Rattle.wrapped_gradient.specs.Gradients.{residue_at};
ghost use Rattle.wrapped_gradient.specs.Rows.{AreInRows};
ghost use Rattle.raster_model.specs.Sheets.{sheet_raster};
ghost use Rattle.raster_model.specs.Tiles.{IsRasterWindow, width_of, height_of};

use crate::weighing::weight;
use raster_model::{Edge, MAX_WEIGHT, Sheet, Window};
use std::alloc::{AllocError, Global};
use wrapped_gradient::Gradients;

/// The weights of the window's right edges under the mask.
pub(crate) fn right_weights(
    alloc: Global,
    sheet: &Sheet,
    window: Window,
    unmasked: &[bool],
) -> Result<Vec<i32>, AllocError>
    requires { IsMadeFor (sheet_raster sheet.now) window unmasked.now }
    ensures rows { IfOk result (λ list. AreInRows (right_edge_weights (sheet_raster sheet.now) window unmasked.now) window.x0 window.y0 (width_of window - 1) ((width_of window - 1) * height_of window) list.items) }
    ensures small { IfOk result (λ list. (k : ℕ) → unsigned_abs (get_or list.items k (pos 0)) ≤ MAX_WEIGHT) }
{
    let across = (window.x1 - window.x0) as usize;
    let along = window.height() as usize;
    let mut list = Vec::with_capacity(alloc, across * along)?;
    for y in window.y0..window.y1 + 1 {
        for x in window.x0..window.x1 {
            let edge = Edge { x, y, down: false };
            list.push(i32::from(weight(sheet, window, unmasked, edge)))?;
        }
    }
    Ok(list)
}

/// The weights of the window's down edges under the mask.
pub(crate) fn down_weights(
    alloc: Global,
    sheet: &Sheet,
    window: Window,
    unmasked: &[bool],
) -> Result<Vec<i32>, AllocError>
    requires { IsMadeFor (sheet_raster sheet.now) window unmasked.now }
    ensures rows { IfOk result (λ list. AreInRows (down_edge_weights (sheet_raster sheet.now) window unmasked.now) window.x0 window.y0 (width_of window) (width_of window * (height_of window - 1)) list.items) }
    ensures small { IfOk result (λ list. (k : ℕ) → unsigned_abs (get_or list.items k (pos 0)) ≤ MAX_WEIGHT) }
{
    let across = (window.x1 - window.x0) as usize + 1;
    let along = (window.y1 - window.y0) as usize;
    let mut list = Vec::with_capacity(alloc, across * along)?;
    for y in window.y0..window.y1 {
        for x in window.x0..window.x1 + 1 {
            let edge = Edge { x, y, down: true };
            list.push(i32::from(weight(sheet, window, unmasked, edge)))?;
        }
    }
    Ok(list)
}

/// The residues of the cells.
pub(crate) fn residues(alloc: Global, gradients: &Gradients) -> Result<Vec<i8>, AllocError>
    requires { IsRasterWindow gradients.now.window }
    ensures { IfOk result (λ list. AreInRows (residue_at gradients.now) gradients.now.window.x0 gradients.now.window.y0 (gradients.now.window.x1 - gradients.now.window.x0) (cells_of gradients.now.window) list.items) }
{
    let window = gradients.window();
    let across = (window.x1 - window.x0) as usize;
    let along = (window.y1 - window.y0) as usize;
    let mut list = Vec::with_capacity(alloc, across * along)?;
    for y in window.y0..window.y1 {
        for x in window.x0..window.x1 {
            list.push(gradients.residue(x, y))?;
        }
    }
    Ok(list)
}
