ghost use Rattle.displacement.specs.Blocks.{blocks_of, has_value};
ghost use Rattle.displacement.specs.Displacements.{HasCause, IsBlockSide, IsBlockValue, IsDisplacement, IsFirstWideBlock, IsWavelength, IsWideBlock};
ghost use Rattle.displacement.specs.Steps.{AreBlockValues, HasBlockCause};
ghost use Rattle.displacement.specs.declared.fault.SightFault.TheVariants as faults;
ghost use Rattle.grid_writer.specs.Grids.{grid_of};
ghost use Rattle.std.specs.Prelude.{◌≡◌, ◌<◌, ◌*◌, ◌⊎◌, ℕ, IsTrue, Err, IfErr, IfOk, MatchOption, false, vec_len};
ghost use Rattle.raster_model.specs.Limits.{max_tiled_side};

use crate::blocks::block_total;
use crate::fault::SightFault;
use crate::sight::Sight;
use grid_writer::{Grid, NO_DATA};
use std::alloc::Global;

/// The displacements of a surface along the line of sight, in nanometres: one for each block of pixels, the mean of its
/// values less the reference pixel's, rounded towards minus infinity. A cycle is half a wavelength of range. A block without
/// a value has the NODATA value. Of several refusals the first in the order of `SightFault` comes, and of wide blocks the
/// first in row order. (Massonnet and Feigl 1998.)
pub fn displace(alloc: Global, grid: &Grid, sight: Sight) -> Result<Grid, SightFault>
    requires wave { IsWavelength sight.wavelength }
    requires blocks { IsBlockSide sight.block }
    ensures displaced { IfOk result (λ output. IsDisplacement sight (grid_of grid.now) (grid_of output)) }
    ensures refused { IfErr result (HasCause sight (grid_of grid.now)) }
    ensures reference { has_value (grid_of grid.now) sight.x sight.y ≡ false → result ≡ Err faults.Reference }
    ensures wide { (x y : ℕ) → IsTrue (has_value (grid_of grid.now) sight.x sight.y) → IsFirstWideBlock sight (grid_of grid.now) x y → (result ≡ Err (faults.Wide x y)) ⊎ (result ≡ Err faults.Memory) }
{
    let Some(reference) = value_of(grid, sight.x, sight.y) else {
        return Err(SightFault::Reference);
    };
    let width = grid.width.div_ceil(sight.block);
    let height = grid.height.div_ceil(sight.block);
    let room = vec![in alloc; NO_DATA; width as usize * height as usize]?;
    let values = block_values(grid, sight, reference, width, height, room)?;
    Ok(Grid {
        width,
        height,
        values,
    })
}

/// The value of a pixel. `None` if it is not on the grid or has the NODATA value.
fn value_of(grid: &Grid, x: u32, y: u32) -> Option<i64>
    ensures { MatchOption result (has_value (grid_of grid.now) x y ≡ false) (λ value. IsTrue (has_value (grid_of grid.now) x y) × (value ≡ (grid_of grid.now).values x y)) }
{
    if x >= grid.width || y >= grid.height {
        return None;
    }
    let value = grid.values[y as usize * grid.width as usize + x as usize];
    if value == NO_DATA { None } else { Some(value) }
}

/// What stands for a block. `None` if its displacement cannot stand there.
fn block_value(grid: &Grid, sight: Sight, reference: i64, column: u32, row: u32) -> Option<i64>
    requires wave { IsWavelength sight.wavelength }
    requires blocks { IsBlockSide sight.block }
    requires reference { reference ≡ (grid_of grid.now).values sight.x sight.y }
    requires across { column < blocks_of sight.block grid.now.width }
    requires along { row < blocks_of sight.block grid.now.height }
    ensures { MatchOption result (IsWideBlock sight (grid_of grid.now) column row) (IsBlockValue sight (grid_of grid.now) column row) }
{
    let total = block_total(grid, sight.block, column, row);
    if total.count == 0 {
        return Some(NO_DATA);
    }
    total.displacement(reference, sight.wavelength)
}

/// What stands for each block, in row order, in the room for it. It takes no memory, so it is refused only for a wide block.
fn block_values(
    grid: &Grid,
    sight: Sight,
    reference: i64,
    width: u32,
    height: u32,
    mut values: Vec<i64>,
) -> Result<Vec<i64>, SightFault>
    requires wave { IsWavelength sight.wavelength }
    requires blocks { IsBlockSide sight.block }
    requires reference { reference ≡ (grid_of grid.now).values sight.x sight.y }
    requires width { width ≡ blocks_of sight.block grid.now.width }
    requires height { height ≡ blocks_of sight.block grid.now.height }
    requires room { vec_len values ≡ width * height }
    ensures full { IfOk result (λ values. vec_len values ≡ width * height) }
    ensures values { IfOk result (λ values. AreBlockValues sight (grid_of grid.now) width (width * height) values.items) }
    ensures refused { IfErr result (HasBlockCause sight (grid_of grid.now)) }
{
    for place in 0..width * height {
        let (x, y) = (place % width, place / width);
        let Some(value) = block_value(grid, sight, reference, x, y) else {
            return Err(SightFault::Wide { x, y });
        };
        values[place as usize] = value;
    }
    Ok(values)
}
