ghost use Rattle.raster_model.specs.declared.limits.TheConstants.{MAX_HEIGHT};
ghost use Rattle.std.specs.Prelude.{◌≡◌, Bool, IsTrue, ℕ, ℤ, ◌≤◌, unsigned_abs};

/// Whole cycles above the phase at pixels. A surface is the phase and 65,536 units for each cycle.
pub trait Heights {
    /// The pixels that it knows.
    ghost knows: { Self → ℕ → ℕ → Bool };

    /// The cycles there.
    ghost cycles_at: { Self → ℕ → ℕ → ℤ };

    /// The cycles at a pixel that it knows.
    fn cycles(&self, x: u32, y: u32) -> i64
        requires { IsTrue (knows self.now x y) }
        ensures value { result ≡ cycles_at self.now x y }
        ensures small { unsigned_abs result ≤ MAX_HEIGHT };
}
