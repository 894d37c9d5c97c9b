ghost use Rattle.std.specs.Prelude.{◌≡◌, ◌≤◌, ◌<◌, ◌+◌, ◌^◌, ◌+ℤ◌, ◌*ℤ◌, pos, unsigned_abs};

use raster_model::{MAX_OFFSET, MAX_TILE_CYCLES};

/// The value that lies this many whole cycles above a phase, in units of 1/65536 cycle.
pub fn level(sample: u16, cycles: i64) -> i64
    requires { unsigned_abs cycles ≤ MAX_OFFSET + MAX_TILE_CYCLES }
    ensures value { result ≡ pos sample +ℤ pos 65536 *ℤ cycles }
    ensures small { unsigned_abs result < 2 ^ 63 }
{
    i64::from(sample) + 65536 * cycles
}
