ghost use Rattle.raster_model.specs.Limits.{IsSlope, IsSteepness};

use crate::limits::{MAX_CYCLE_COST, MAX_STEEPNESS};

/// On which terms a phase is unwrapped: the ramp that is expected of it, and how costs rise.
#[derive(Clone, Copy, Debug, PartialEq, Eq)]
pub struct Terms {
    /// What the phase is expected to rise from a pixel to its right neighbour, in units of 1/65536 cycle.
    pub ramp_x: i32,
    /// What it is expected to rise from a pixel to its lower neighbour.
    pub ramp_y: i32,
    /// The steepness of costs: how many times as much as the first cycle of a departure each further one costs. At 1 all
    /// cost the same.
    pub steep: u32,
    pub ghost across: { IsSlope ramp_x },
    pub ghost along: { IsSlope ramp_y },
    pub ghost steepness: { IsSteepness steep },
}

impl Terms {
    ghost use Rattle.raster_model.specs.Terms.{ArePlainTerms, slope_of};
    ghost use Rattle.raster_model.specs.Raster.{steps as steps_of_departure};
    ghost use Rattle.std.specs.Prelude.{◌≡◌, ◌*◌, ◌≤◌, ◌^◌, unsigned_abs};

    /// No ramp, and the steepness 1.
    pub fn plain() -> Terms
        ensures { ArePlainTerms result }
    {
        Terms {
            ramp_x: 0,
            ramp_y: 0,
            steep: 1,
        }
    }

    /// The slope of the ramp along a down edge, or along a right one.
    pub fn slope(self, down: bool) -> i32
        ensures value { result ≡ slope_of self down }
        ensures slope { IsSlope result }
    {
        if down { self.ramp_y } else { self.ramp_x }
    }

    /// The most by which faces may differ at an edge of a weight, and the most that a flow on it may be: the steepness times
    /// the weight.
    pub fn limit(self, weight: u16) -> u32
        ensures value { result ≡ self.steep * weight }
        ensures small { result ≤ MAX_CYCLE_COST }
    {
        self.steep * u32::from(weight)
    }

    /// What a departure of so many whole cycles counts for: 0 counts for nothing, the first cycle for 1, and each further
    /// one for the steepness.
    pub fn steps(self, departure: i64) -> u64
        requires { unsigned_abs departure ≤ 2 ^ 59 }
        ensures value { result ≡ steps_of_departure self.steep departure }
        ensures small { result ≤ MAX_STEEPNESS * unsigned_abs departure }
    {
        let cycles = departure.unsigned_abs();
        if cycles == 0 {
            0
        } else {
            1 + u64::from(self.steep) * (cycles - 1)
        }
    }
}
