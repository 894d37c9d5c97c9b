ghost use Rattle.raster_model.specs.Tiles.{IsRasterWindow};

use crate::checking::{all_cancelled, are_small, down_edges_tight, has_shape, right_edges_tight};
use crate::listing::{down_weights, residues, right_weights};
use crate::sides::outside;
use raster_model::{Scene, Window};
use std::alloc::{AllocError, Global};
use wrapped_gradient::{Corrections, Gradients};

/// What a window asks of its corrections and faces: the weights of its edges under the mask and the residues of its
/// cells. Each list is in row order. (Costantini 1998.)
#[derive(Drop)]
pub struct Problem {
    /// The window.
    pub window: Window,
    /// The weights of the right edges. Each row has one fewer than the window has pixels across.
    pub right: Vec<i32>,
    /// The weights of the down edges. There is one row fewer than the window has.
    pub down: Vec<i32>,
    /// The residues of the cells, in cycles.
    pub residues: Vec<i8>,
    /// The steepness: how many times as much as the first cycle of a correction each further one costs.
    pub steep: u32,
    pub(crate) ghost limited: { IsRasterWindow window },
}

impl Problem {
    ghost use Rattle.dual_grid.specs.Problems.{IsAnsweredBy, IsProblemOf};
    ghost use Rattle.raster_model.specs.Scene.{raster_of};
    ghost use Rattle.raster_model.specs.Tiles.{tiles_of, window_of, width_of, height_of};
    ghost use Rattle.std.specs.Prelude.{◌≡◌, ◌*◌, ◌<◌, IfOk, IsTrue, length};
    ghost use Rattle.wrapped_gradient.specs.Gradients.{AreGradientsOf};

    /// The problem of a tile. `unmasked` tells the mask: for each pixel of the tile's window, in row order, whether it
    /// is open. The gradients are the scene's over that window. It fails only for lack of memory.
    pub fn of(
        alloc: Global,
        scene: &Scene,
        gradients: &Gradients,
        tile: u32,
        unmasked: &[bool],
    ) -> Result<Problem, AllocError>
        requires tile { tile < tiles_of scene.now.tiling }
        requires gradients { AreGradientsOf (raster_of scene.now) gradients.now }
        requires window { gradients.now.window ≡ window_of scene.now.tiling tile }
        requires count { length unmasked.now ≡ width_of gradients.now.window * height_of gradients.now.window }
        ensures { IfOk result (λ made. IsProblemOf (raster_of scene.now) (window_of scene.now.tiling tile) unmasked.now made) }
    {
        let window = scene.tiling.window(tile);
        let sheet = scene.sheet();
        Ok(Problem {
            window,
            right: right_weights(alloc, &sheet, window, unmasked)?,
            down: down_weights(alloc, &sheet, window, unmasked)?,
            residues: residues(alloc, gradients)?,
            steep: scene.terms.steep,
        })
    }

    /// Whether corrections and faces are an answer. The corrections cancel the residues. The faces differ across each
    /// edge by at most its weight if it is not corrected, by no less and at most the steepness times that if it is
    /// corrected by one cycle, and by the steepness times the weight if by more. No correction is above the number of cells by
    /// more than 1, which is more than all of them have to send. Then no corrections cost less. (Ahuja,
    /// Magnanti and Orlin 1993, section 9.4; section 14.4 for costs that rise.)
    pub fn is_answered_by(&self, corrections: &Corrections, faces: &[i64]) -> bool
        ensures { IsTrue result → IsAnsweredBy self.now corrections.now faces.now }
    {
        if !has_shape(self, corrections, faces) {
            return false;
        }
        let most = outside(self.window) + 1;
        if !are_small(&corrections.right, most) {
            return false;
        }
        if !are_small(&corrections.down, most) {
            return false;
        }
        if !all_cancelled(self, corrections) {
            return false;
        }
        right_edges_tight(self, corrections, faces) && down_edges_tight(self, corrections, faces)
    }
}
