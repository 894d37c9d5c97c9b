ghost use Rattle.raster_model.specs.Limits.{IsSteepness};
ghost use Rattle.std.specs.Int.{int_min};
ghost use Rattle.std.specs.Prelude.{◌≡◌, ◌*◌, ◌<◌, ◌≤◌, ◌-ℤ◌, pos, unsigned_abs};

/// The margin of an edge of a certified surface, by its weight and the step of the faces there. Up to the weight it is the
/// weight less the amount of the step; beyond, the lesser of the amount less the weight and what a further cycle costs less
/// the amount. (Costantini 1998.)
pub(crate) fn margin_of(steep: u32, weight: u16, step: i64) -> i64
    requires steepness { IsSteepness steep }
    requires step { unsigned_abs step ≤ steep * weight }
    ensures within { unsigned_abs step ≤ weight → result ≡ pos weight -ℤ pos (unsigned_abs step) }
    ensures beyond { weight < unsigned_abs step → result ≡ int_min (pos (unsigned_abs step) -ℤ pos weight) (pos (steep * weight) -ℤ pos (unsigned_abs step)) }
{
    let weight = i64::from(weight);
    let further = i64::from(steep) * weight;
    let size = step.abs();
    if size <= weight {
        weight - size
    } else {
        (size - weight).min(further - size)
    }
}
