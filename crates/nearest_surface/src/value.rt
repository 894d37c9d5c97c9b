ghost use Rattle.grid_writer.specs.Values.{CanStand};
ghost use Rattle.nearest_surface.specs.Nearest.{IsNearest, IsTooWide};
ghost use Rattle.std.specs.Prelude.{◌+ℤ◌, MatchOption};

use grid_writer::NO_DATA;

/// How many units make a cycle.
const CYCLE: i128 = 65_536;

/// How many units make half a cycle.
const HALF_CYCLE: i128 = 32_768;

/// How far above the given value the nearest one is, from -32768 to 32767.
fn rise_to(phase: u16, given: i64) -> i128
    ensures { IsNearest phase given (given +ℤ result) }
{
    (i128::from(phase) - i128::from(given) + HALF_CYCLE).rem_euclid(CYCLE) - HALF_CYCLE
}

/// The value that is nearest to the given one. `None` if it does not fit 64 bits or is the NODATA value.
pub(crate) fn nearest_value(phase: u16, given: i64) -> Option<i64>
    ensures { MatchOption result (IsTooWide phase given) (λ value. IsNearest phase given value × CanStand value) }
{
    match i64::try_from(i128::from(given) + rise_to(phase, given)) {
        Ok(value) if value != NO_DATA => Some(value),
        _ => None,
    }
}
