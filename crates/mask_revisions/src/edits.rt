ghost use Rattle.raster_model.specs.Limits.{max_tiled_side};
ghost use Rattle.mask_revisions.specs.Edits.{opens as opens_pixels};
ghost use Rattle.mask_revisions.specs.Steps.{HasOther, IsAll, IsBoxSet};
ghost use Rattle.raster_model.specs.Masks.{open_at};
ghost use Rattle.raster_model.specs.Scripts.{IsRectIn, rect_of as box_of};
ghost use Rattle.std.specs.Prelude.{◌≡◌, ◌+◌, ◌<◌, ◌≤◌, MatchBool};

use raster_model::{Edit, Mask, Rect};

/// The pixels that an edit masks or opens.
pub fn rect_of(edit: Edit) -> Rect
    ensures { result ≡ box_of edit }
{
    match edit {
        Edit::Mask(rect) | Edit::Unmask(rect) => rect,
    }
}

/// Whether an edit opens the pixels of its box; otherwise it masks them.
pub fn opens(edit: Edit) -> bool
    ensures { result ≡ opens_pixels edit }
{
    match edit {
        Edit::Mask(_) => false,
        Edit::Unmask(_) => true,
    }
}

/// Opens or masks the pixels of a box. Answers whether one changed.
pub fn set_box(mask: &mut Mask, rect: Rect, unmasked: bool) -> bool
    requires rect { IsRectIn mask.old.width mask.old.height rect }
    requires small { mask.old.height ≤ max_tiled_side }
    ensures set { IsBoxSet mask.old mask.new rect.x0 (rect.x1 + 1) rect.y0 (rect.y1 + 1) unmasked }
    ensures changed { MatchBool result (HasOther (open_at mask.old) rect.x0 (rect.x1 + 1) rect.y0 (rect.y1 + 1) unmasked) (IsAll (open_at mask.old) rect.x0 (rect.x1 + 1) rect.y0 (rect.y1 + 1) unmasked) }
{
    let mut changed = false;
    for y in rect.y0..rect.y1 + 1 {
        changed |= mask.set_span(y, rect.x0, rect.x1, unmasked);
    }
    changed
}
