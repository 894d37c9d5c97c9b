ghost use Rattle.loop_closure.specs.Closure.{AreCyclesIn, IsHalfCycle, key_of, keys_of};
ghost use Rattle.loop_closure.specs.Parts.{HaveCycles};
ghost use Rattle.std.specs.Prelude.{◌≡◌, ◌-ℤ◌, ◌*ℤ◌, pos, IfOk, length};

use grid_writer::NO_DATA;
use std::alloc::{AllocError, Global};

/// A cycle, in the units of a closure.
const CYCLE: i64 = 65536;

/// How many whole cycles are in a closure: without them it is from -32768 to 32767.
fn whole_cycles(closure: i64) -> i64
    ensures { IsHalfCycle (closure -ℤ pos 65536 *ℤ result) }
{
    let whole = closure / CYCLE;
    let rest = closure % CYCLE;
    if rest >= CYCLE / 2 {
        whole + 1
    } else if rest < -(CYCLE / 2) {
        whole - 1
    } else {
        whole
    }
}

/// The cycles in a closure, NODATA where there is none.
fn cycles_in(closure: i64) -> i64
    ensures { AreCyclesIn closure result }
{
    if closure == NO_DATA {
        NO_DATA
    } else {
        whole_cycles(closure)
    }
}

/// Puts the cycles in each closure into a list.
pub(crate) fn put_cycles(closures: &[i64], cycles: &mut [i64])
    requires { length closures.now ≡ length cycles.old }
    ensures { HaveCycles closures.now (length cycles.new) cycles.new }
{
    for place in 0..cycles.len() {
        cycles[place] = cycles_in(closures[place]);
    }
}

/// The key by which patches of misclosed pixels are told: the cycles, and 0 for NODATA.
pub(crate) fn key(cycles: i64) -> i64
    ensures { result ≡ key_of cycles }
{
    if cycles == NO_DATA { 0 } else { cycles }
}

/// A key for each number of cycles.
pub(crate) fn keys(alloc: Global, cycles: &[i64]) -> Result<Vec<i64>, AllocError>
    ensures { IfOk result (λ keys. keys.items ≡ keys_of cycles.now) }
{
    let mut keys = Vec::with_capacity(alloc, cycles.len())?;
    for cycles in cycles {
        keys.push(key(*cycles))?;
    }
    Ok(keys)
}
