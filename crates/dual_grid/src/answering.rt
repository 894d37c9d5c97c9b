ghost use Rattle.dual_grid.specs.Building.{AreFaces};
ghost use Rattle.dual_grid.specs.Layout.{AreWithinReach, number_or_zero};
ghost use Rattle.std.specs.Prelude.{◌<◌, IfOk, length};

use std::alloc::{AllocError, Global};

/// The faces of the cells, in row order: the potential of the outside, which is the node after the cells, minus that of
/// the cell.
pub(crate) fn faces(alloc: Global, potentials: &[i64], cells: u32) -> Result<Vec<i64>, AllocError>
    requires count { cells < length potentials.now }
    requires within { AreWithinReach potentials.now }
    ensures { IfOk result (λ list. AreFaces (number_or_zero potentials.now) cells cells list.items) }
{
    let outside = potentials[cells as usize];
    let mut list = Vec::with_capacity(alloc, cells as usize)?;
    for cell in 0..cells as usize {
        list.push(outside - potentials[cell])?;
    }
    Ok(list)
}
