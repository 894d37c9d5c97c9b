ghost use Rattle.grid_writer.specs.Grids.{grid_of};
ghost use Rattle.loop_closure.specs.Closure.{AreClosures, AreCycles, AreMisclosed, IsFirstWideLoop};
ghost use Rattle.loop_closure.specs.Parts.{HasLoopCause, HasWideCause, IsWideTold};
ghost use Rattle.std.specs.Prelude.{◌≡◌, ℕ, IfErr, IfOk, vec_len};

use crate::closures::put_closures;
use crate::cycles::{keys, put_cycles};
use crate::fault::LoopFault;
use crate::loops::Loops;
use auto_masks::Patches;
use grid_writer::{Grid, NO_DATA};
use std::alloc::{AllocError, Global};

/// Closes the loop of three grids of one size: `a` plus `b` minus `c` at each pixel where all three have a value, as phase 12
/// plus phase 23 minus phase 13 of three acquisitions. It takes three passes over the pixels and those of the patches, and at most 60 bytes a pixel.
pub fn close_loop(alloc: Global, a: &Grid, b: &Grid, c: &Grid) -> Result<Loops, LoopFault>
    requires second { (b.now.width ≡ a.now.width) × (b.now.height ≡ a.now.height) }
    requires third { (c.now.width ≡ a.now.width) × (c.now.height ≡ a.now.height) }
    ensures closed { IfOk result (λ loops. AreClosures (grid_of a.now) (grid_of b.now) (grid_of c.now) (grid_of loops.closures)) }
    ensures whole { IfOk result (λ loops. AreCycles (grid_of loops.closures) (grid_of loops.cycles)) }
    ensures misclosed { IfOk result (λ loops. AreMisclosed loops.cycles loops.patches) }
    // The first pixel in row order whose closure is too wide, or memory ran out.
    ensures refused { IfErr result (HasLoopCause (grid_of a.now) (grid_of b.now) (grid_of c.now)) }
    ensures exact { (x y : ℕ) → IsFirstWideLoop (grid_of a.now) (grid_of b.now) (grid_of c.now) x y → IsWideTold x y result }
{
    let room = vec![in alloc; NO_DATA; a.values.len()]?;
    let closures = closures_of(a, b, c, room)?;
    Ok(loops_of(alloc, closures)?)
}

/// The closures of three grids of one size, in the room for them. It takes no memory, so it is refused only for a closure that is
/// too wide.
fn closures_of(a: &Grid, b: &Grid, c: &Grid, mut values: Vec<i64>) -> Result<Grid, LoopFault>
    requires second { (b.now.width ≡ a.now.width) × (b.now.height ≡ a.now.height) }
    requires third { (c.now.width ≡ a.now.width) × (c.now.height ≡ a.now.height) }
    requires room { vec_len values ≡ vec_len a.now.values }
    ensures closed { IfOk result (λ closures. AreClosures (grid_of a.now) (grid_of b.now) (grid_of c.now) (grid_of closures)) }
    ensures refused { IfErr result (HasWideCause (grid_of a.now) (grid_of b.now) (grid_of c.now)) }
{
    match put_closures(&a.values, &b.values, &c.values, &mut values) {
        None => Ok(Grid {
            width: a.width,
            height: a.height,
            values,
        }),
        Some(place) => Err(LoopFault::Wide {
            x: place as u32 % a.width,
            y: place as u32 / a.width,
        }),
    }
}

/// What is told of closures.
fn loops_of(alloc: Global, closures: Grid) -> Result<Loops, AllocError>
    ensures same { IfOk result (λ loops. loops.closures ≡ closures) }
    ensures whole { IfOk result (λ loops. AreCycles (grid_of loops.closures) (grid_of loops.cycles)) }
    ensures misclosed { IfOk result (λ loops. AreMisclosed loops.cycles loops.patches) }
{
    let cycles = cycles_of(alloc, &closures)?;
    let patches = patches_of(alloc, &cycles)?;
    Ok(Loops {
        closures,
        cycles,
        patches,
    })
}

/// The cycles in the closures of a grid.
fn cycles_of(alloc: Global, closures: &Grid) -> Result<Grid, AllocError>
    ensures { IfOk result (λ cycles. AreCycles (grid_of closures.now) (grid_of cycles)) }
{
    let mut values = vec![in alloc; NO_DATA; closures.values.len()]?;
    put_cycles(&closures.values, &mut values);
    Ok(Grid {
        width: closures.width,
        height: closures.height,
        values,
    })
}

/// The patches of misclosed pixels.
fn patches_of(alloc: Global, cycles: &Grid) -> Result<Patches, AllocError>
    ensures { IfOk result (λ patches. AreMisclosed cycles.now patches) }
{
    let keys = keys(alloc, &cycles.values)?;
    Patches::of(alloc, cycles.width, cycles.height, &keys)
}
