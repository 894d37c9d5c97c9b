ghost use Rattle.raster_model.specs.Masks.{open_at};
ghost use Rattle.raster_model.specs.Sheets.{sheet_raster};
ghost use Rattle.raster_model.specs.Whole.{IsLeastOfAll};
ghost use Rattle.std.specs.Prelude.{◌≡◌, ◌↔◌};
ghost use Rattle.whole_check.specs.Verdicts.{IsCertifiedText, IsWholeVerdict, surface_told};
ghost use Rattle.whole_check.specs.declared.verdict.WholeVerdict.TheVariants.{Accepted};
ghost use Rattle.whole_text.specs.Reading.{whole_told};
ghost use Rattle.whole_text.specs.Told.{task_of};

use crate::judged::JudgedWhole;
use crate::verdict::WholeVerdict;
use raster_model::{Mask, Sheet};
use whole_text::Whole;

/// Checks the text of a surface over the whole raster against a sheet under a mask: that it is certified, or the first
/// thing that is wrong with it. First its head is judged, then its values, then its faces, then its cost. It takes no memory,
/// and visits each pixel a few times. (Costantini 1998.)
pub fn check_whole_text(sheet: &Sheet<'_>, mask: &Mask, whole: &Whole) -> WholeVerdict
    requires same_size { (mask.now.width ≡ sheet.now.phase.now.width) × (mask.now.height ≡ sheet.now.phase.now.height) }
    ensures verdict { IsWholeVerdict (task_of sheet.now mask.now) (whole_told whole.now) result }
    ensures accepted { (result ≡ Accepted) ↔ IsCertifiedText (task_of sheet.now mask.now) (whole_told whole.now) }
    ensures least { result ≡ Accepted → IsLeastOfAll (sheet_raster sheet.now) (open_at mask.now) (surface_told (task_of sheet.now mask.now) (whole_told whole.now)) }
{
    let judged = JudgedWhole { sheet, mask, whole };
    judged.verdict()
}
