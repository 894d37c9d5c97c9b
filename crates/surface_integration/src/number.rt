ghost use Rattle.raster_model.specs.declared.limits.TheConstants.{MAX_REACHED_CYCLES};
ghost use Rattle.surface_integration.specs.declared.limits.TheConstants.{MAX_NARROW_CYCLES};
ghost use Rattle.std.specs.Prelude.{◌≡◌, ◌≤◌, ℕ, ℤ, unsigned_abs};

/// A number of cycles, in as many bits as are kept of it.
pub(crate) trait CycleNumber: Copy {
    /// The number of cycles.
    ghost value: { Self → ℤ };

    /// How many cycles on either side of 0 there is room for.
    ghost limit: { ℕ };

    /// So many cycles.
    fn of(cycles: i64) -> Self
        requires { unsigned_abs cycles ≤ limit }
        ensures { value result ≡ cycles };
}

impl CycleNumber for i32 {
    ghost value = { λ cycles. cycles };

    ghost limit = { MAX_NARROW_CYCLES };

    fn of(cycles: i64) -> i32 {
        cycles as i32
    }
}

impl CycleNumber for i64 {
    ghost value = { λ cycles. cycles };

    ghost limit = { MAX_REACHED_CYCLES };

    fn of(cycles: i64) -> i64 {
        cycles
    }
}
