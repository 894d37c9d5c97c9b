ghost use Rattle.displacement.specs.Displacements.{IsMean, IsTooWide, IsWavelength};
ghost use Rattle.displacement.specs.declared.sight.TheConstants.{MAX_BLOCK, MAX_BLOCK_PIXELS};
ghost use Rattle.displacement.specs.Steps.{IsFloor, MayBeSum};
ghost use Rattle.grid_writer.specs.Values.{CanStand, is_value};
ghost use Rattle.std.specs.Prelude.{◌≡◌, ◌+◌, ◌<◌, ◌≤◌, pos, ◌+ℤ◌, ◌-ℤ◌, ◌*ℤ◌, ◌<ℤ◌, MatchOption};
ghost use Rattle.sums_and_lists.specs.Sums.{one_if, where_true};

use grid_writer::NO_DATA;

/// Units of phase in a wavelength: 65536 are a cycle, and a cycle is half a wavelength of range.
const UNITS: i128 = 131_072;

/// How many pixels have a value, and the sum of these values, in units of 1/65536 cycle.
#[derive(Clone, Copy)]
pub(crate) struct Total {
    pub(crate) count: u32,
    pub(crate) sum: i128,
}

/// A quotient, rounded towards minus infinity.
fn rounded_down(dividend: i128, divisor: i128) -> i128
    requires { pos 0 <ℤ divisor }
    ensures { IsFloor dividend divisor result }
{
    dividend.div_euclid(divisor)
}

impl Total {
    /// The total of no pixels.
    pub(crate) const NONE: Total = Total { count: 0, sum: 0 };

    /// The total with one pixel more.
    pub(crate) fn plus(self, value: i64) -> Total
        requires few { self.count < MAX_BLOCK }
        requires within { MayBeSum self.count self.sum }
        ensures count { result.count ≡ self.count + one_if (is_value value) }
        ensures sum { result.sum ≡ self.sum +ℤ where_true (is_value value) value }
    {
        if value == NO_DATA {
            return self;
        }
        Total {
            count: self.count + 1,
            sum: self.sum + i128::from(value),
        }
    }

    /// The total of these pixels and others.
    pub(crate) fn join(self, other: Total) -> Total
        requires few { self.count + other.count ≤ MAX_BLOCK_PIXELS }
        requires within { MayBeSum self.count self.sum }
        requires beside { MayBeSum other.count other.sum }
        ensures count { result.count ≡ self.count + other.count }
        ensures sum { result.sum ≡ self.sum +ℤ other.sum }
    {
        Total {
            count: self.count + other.count,
            sum: self.sum + other.sum,
        }
    }

    /// The mean of these pixels' values less a reference, in nanometres, rounded towards minus infinity. `None` if it does
    /// not fit 64 bits or is the NODATA value.
    pub(crate) fn displacement(self, reference: i64, wavelength: u32) -> Option<i64>
        requires some { 0 < self.count }
        requires few { self.count ≤ MAX_BLOCK_PIXELS }
        requires within { MayBeSum self.count self.sum }
        requires wave { IsWavelength wavelength }
        ensures { MatchOption result (IsTooWide wavelength self.count (self.sum -ℤ pos self.count *ℤ reference)) (λ d. IsMean wavelength self.count (self.sum -ℤ pos self.count *ℤ reference) d × CanStand d) }
    {
        let count = i128::from(self.count);
        let rise = self.sum - count * i128::from(reference);
        let nanometres = rounded_down(i128::from(wavelength) * rise, UNITS * count);
        match i64::try_from(nanometres) {
            Ok(value) if value != NO_DATA => Some(value),
            _ => None,
        }
    }
}
