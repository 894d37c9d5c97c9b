ghost use Rattle.raster_model.specs.Limits.{IsSlope};
ghost use Rattle.raster_model.specs.Phase.{IsWrapped, IsWrappedBy, turns_by, wrapped as wrapped_difference, wrapped_by};
ghost use Rattle.std.specs.Prelude.{◌≡◌, ◌≤◌, pos, ◌+ℤ◌, ◌-ℤ◌, ◌*ℤ◌, unsigned_abs};

/// The wrapped difference from phase `a` to phase `b`, in units of 1/65536 cycle, from -32768 to 32767.
/// An exact half cycle is -32768, never 32768. (Costantini 1998.)
pub fn wrapped(a: u16, b: u16) -> i32
    ensures meets { IsWrapped a b result }
    ensures value { result ≡ wrapped_difference a b }
{
    (i32::from(b) - i32::from(a) + 32768).rem_euclid(65536) - 32768
}

/// The wrapped difference from phase `a` to phase `b` around a slope, from 32768 below it to 32767 above it. Around the
/// slope 0 it is `wrapped`.
pub fn wrapped_ramp(a: u16, b: u16, slope: i32) -> i32
    requires { IsSlope slope }
    ensures meets { IsWrappedBy slope a b result }
    ensures value { result ≡ wrapped_by slope a b }
{
    slope + ((i32::from(b) - i32::from(a) - slope + 32768).rem_euclid(65536) - 32768)
}

/// The whole cycles that the wrapped difference around a slope leaves out of the difference of two phases: -1, 0 or 1.
pub fn turns_ramp(a: u16, b: u16, slope: i32) -> i32
    requires { IsSlope slope }
    ensures value { result ≡ turns_by slope a b }
    ensures exact { pos b -ℤ pos a ≡ wrapped_by slope a b +ℤ pos 65536 *ℤ result }
    ensures small { unsigned_abs result ≤ 1 }
{
    (i32::from(b) - i32::from(a) - slope + 32768).div_euclid(65536)
}
