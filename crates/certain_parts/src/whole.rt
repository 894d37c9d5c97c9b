ghost use Rattle.certain_parts.specs.Labels.{ArePartsOf};
ghost use Rattle.certain_parts.specs.Told.{faced_told};
ghost use Rattle.std.specs.Prelude.{◌≡◌, IfOk};
ghost use Rattle.whole_check.specs.Verdicts.{IsCertifiedText};
ghost use Rattle.whole_text.specs.Reading.{whole_told};
ghost use Rattle.whole_text.specs.Told.{task_of};

use crate::parts::Parts;
use grid_writer::ShownValues;
use raster_model::{Mask, Sheet};
use std::alloc::{AllocError, Global};
use whole_text::Whole;

/// The parts of the surface that a text shows, under a mask, at a limit, with at least `least` pixels each. The text is one
/// that `check_whole_text` of `whole_check` accepts for the sheet and the mask. It takes 12 bytes a pixel at most, and fails
/// only for lack of memory.
pub fn parts_of_whole(
    alloc: Global,
    sheet: &Sheet<'_>,
    mask: &Mask,
    whole: &Whole,
    limit: u32,
    least: u32,
) -> Result<Parts, AllocError>
    requires same_size { (mask.now.width ≡ sheet.now.phase.now.width) × (mask.now.height ≡ sheet.now.phase.now.height) }
    requires certified { IsCertifiedText (task_of sheet.now mask.now) (whole_told whole.now) }
    ensures { IfOk result (λ made. ArePartsOf (faced_told (task_of sheet.now mask.now) (whole_told whole.now)) limit least made) }
{
    let heights = ShownValues {
        sheet,
        mask,
        values: &whole.values,
    };
    Parts::of(alloc, sheet, mask, &heights, &whole.faces, limit, least)
}
