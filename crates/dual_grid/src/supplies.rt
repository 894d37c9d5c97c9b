ghost use Rattle.dual_grid.specs.Building.{AreCellSupplies, sum_of_first};
ghost use Rattle.dual_grid.specs.Nodes.{cells_of};
ghost use Rattle.raster_model.specs.Tiles.{IsRasterWindow};
ghost use Rattle.std.specs.Prelude.{◌≡◌, ◌-◌, ◌<◌, ◌≤◌, ℕ, IfOk, get_or, length, neg_ℤ, pos, unsigned_abs};
ghost use Rattle.wrapped_gradient.specs.Gradients.{residue_at};
ghost use Rattle.wrapped_gradient.specs.Rows.{AreInRows};

use crate::sides::outside;
use raster_model::MAX_NETWORK_NODES;
use std::alloc::{AllocError, Global};
use wrapped_gradient::Gradients;

/// What each node has to send: a cell its residue, and the outside minus the sum of all residues.
pub(crate) fn supplies(alloc: Global, gradients: &Gradients) -> Result<Vec<i64>, AllocError>
    requires { IsRasterWindow gradients.now.window }
    ensures { IfOk result (λ supplies. AreCellSupplies (residue_at gradients.now) gradients.now.window supplies.items) }
{
    let mut supplies = residues(alloc, gradients)?;
    let rest = minus_sum(&supplies);
    supplies.push(rest)?;
    Ok(supplies)
}

/// The residues of the cells in row order.
fn residues(alloc: Global, gradients: &Gradients) -> Result<Vec<i64>, AllocError>
    requires { IsRasterWindow gradients.now.window }
    ensures rows { IfOk result (λ list. AreInRows (residue_at gradients.now) gradients.now.window.x0 gradients.now.window.y0 (gradients.now.window.x1 - gradients.now.window.x0) (cells_of gradients.now.window) list.items) }
    ensures small { IfOk result (λ list. (k : ℕ) → unsigned_abs (get_or list.items k (pos 0)) ≤ 1) }
{
    let window = gradients.window();
    let mut list = Vec::with_capacity(alloc, outside(window) as usize + 1)?;
    for y in window.y0..window.y1 {
        for x in window.x0..window.x1 {
            list.push(i64::from(gradients.residue(x, y)))?;
        }
    }
    Ok(list)
}

/// Minus the sum of numbers from -1 to 1.
fn minus_sum(numbers: &[i64]) -> i64
    requires few { length numbers.now ≤ MAX_NETWORK_NODES }
    requires small { (k : ℕ) → unsigned_abs (get_or numbers.now k (pos 0)) ≤ 1 }
    ensures { result ≡ neg_ℤ (sum_of_first numbers.now (length numbers.now)) }
{
    let mut rest: i64 = 0;
    for number in numbers {
        rest -= *number;
    }
    rest
}
