ghost use Rattle.grid_writer.specs.Grids.{grid_of, value_at};
ghost use Rattle.nearest_surface.specs.Nearest.{HasCause, IsFirstOf, IsMissing, IsNearestSurface, IsTooWide, IsWide, Stands, masked_phase};
ghost use Rattle.nearest_surface.specs.declared.fault.NearestFault.{NearestFault as AnyFault};
ghost use Rattle.raster_model.specs.Masks.{open_at};
ghost use Rattle.raster_model.specs.Planes.{plane_sample};
ghost use Rattle.std.specs.Prelude.{◌≡◌, ◌<◌, ◌*◌, ℕ, Err, IfErr, IfNone, IfOk, IfSome, IsTrue, MatchOption, length};

use crate::fault::NearestFault;
use crate::value::nearest_value;
use grid_writer::{Grid, NO_DATA};
use raster_model::{Mask, Plane};

/// The surface that differs from the phase by whole cycles at each open pixel and is nearest to the given one: at most half a
/// cycle away, and of two that are half a cycle away the lower. A masked pixel has the NODATA value. It takes no memory: the
/// values are put where the given ones were. Of several refusals the first in the order of `NearestFault` comes, and of
/// pixels the first in row order.
pub fn bring_nearest(phase: &Plane, mask: &Mask, given: Grid) -> Result<Grid, NearestFault>
    requires across { mask.now.width ≡ phase.now.width }
    requires along { mask.now.height ≡ phase.now.height }
    ensures nearest { IfOk result (λ output. IsNearestSurface (masked_phase phase.now mask.now) (grid_of given) (grid_of output)) }
    ensures refused { IfErr result (HasCause (masked_phase phase.now mask.now) (grid_of given)) }
    ensures exact { (fault : AnyFault) → HasCause (masked_phase phase.now mask.now) (grid_of given) fault → result ≡ Err fault }
{
    if given.width != phase.width || given.height != phase.height {
        return Err(NearestFault::Sizes);
    }
    if let Some((x, y)) = first_missing(mask, &given) {
        return Err(NearestFault::Missing { x, y });
    }
    let Grid {
        width,
        height,
        mut values,
    } = given;
    match bring_values(phase, mask, &mut values) {
        None => Ok(Grid {
            width,
            height,
            values,
        }),
        Some((x, y)) => Err(NearestFault::Wide { x, y }),
    }
}

/// The first open pixel at which no value is given.
fn first_missing(mask: &Mask, given: &Grid) -> Option<(u32, u32)>
    requires across { mask.now.width ≡ given.now.width }
    requires along { mask.now.height ≡ given.now.height }
    ensures found { IfSome result (λ pixel. IsFirstOf given.now.width given.now.height (IsMissing (open_at mask.now) (grid_of given.now).values) pixel.0 pixel.1) }
    ensures none { IfNone result ((x y : ℕ) → x < given.now.width → y < given.now.height → IsMissing (open_at mask.now) (grid_of given.now).values x y → ⊥) }
{
    for place in 0..given.width * given.height {
        let (x, y) = (place % given.width, place / given.width);
        if mask.is_open(x, y) && given.values[place as usize] == NO_DATA {
            return Some((x, y));
        }
    }
    None
}

/// Puts what stands at each pixel where the given value is. If the nearest value of one is too wide it stops there and says
/// which.
fn bring_values(phase: &Plane, mask: &Mask, values: &mut [i64]) -> Option<(u32, u32)>
    requires across { mask.now.width ≡ phase.now.width }
    requires along { mask.now.height ≡ phase.now.height }
    requires full { length values.old ≡ phase.now.width * phase.now.height }
    ensures stand { IfNone result ((x y : ℕ) → x < phase.now.width → y < phase.now.height → Stands (open_at mask.now x y) (plane_sample phase.now x y) (value_at phase.now.width values.old x y) (value_at phase.now.width values.new x y)) }
    ensures wide { IfSome result (λ pixel. IsFirstOf phase.now.width phase.now.height (IsWide (masked_phase phase.now mask.now) (value_at phase.now.width values.old)) pixel.0 pixel.1) }
{
    for place in 0..phase.width * phase.height {
        let (x, y) = (place % phase.width, place / phase.width);
        let Some(value) = value_for(phase, mask, x, y, values[place as usize]) else {
            return Some((x, y));
        };
        values[place as usize] = value;
    }
    None
}

/// What stands at a pixel: NODATA if it is masked, and else the value nearest to the given one. `None` if that is too wide.
fn value_for(phase: &Plane, mask: &Mask, x: u32, y: u32, given: i64) -> Option<i64>
    requires across { (x < phase.now.width) × (mask.now.width ≡ phase.now.width) }
    requires along { (y < phase.now.height) × (mask.now.height ≡ phase.now.height) }
    ensures { MatchOption result (IsTrue (open_at mask.now x y) × IsTooWide (plane_sample phase.now x y) given) (Stands (open_at mask.now x y) (plane_sample phase.now x y) given) }
{
    if !mask.is_open(x, y) {
        return Some(NO_DATA);
    }
    nearest_value(phase.sample(x, y), given)
}
