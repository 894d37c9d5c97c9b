ghost use Rattle.seam_regions.specs.Offsets.{AreNear, IsFirstFar};
ghost use Rattle.std.specs.Prelude.{IfNone, IfSome};

use raster_model::MAX_OFFSET;

/// The place of the first offset that is out of range; None if all lie from -2^46 to 2^46.
pub fn first_far(offsets: &[i64]) -> Option<usize>
    ensures found { IfSome result (IsFirstFar offsets.now) }
    ensures none { IfNone result (AreNear offsets.now) }
{
    offsets
        .iter()
        .position(|&offset| offset.unsigned_abs() > MAX_OFFSET)
}
