ghost use Rattle.std.specs.Prelude.{◌≡◌};

use crate::values::first_false_value;
use crate::verdict::WholeVerdict;
use certificates::{TileVerdict, check_whole};
use grid_writer::ShownValues;
use raster_model::{Mask, Sheet};
use whole_text::Whole;

/// The text of a surface over the whole raster, beside the sheet and the mask that it should be of.
#[derive(Clone, Copy)]
pub(crate) struct JudgedWhole<'a> {
    pub(crate) sheet: &'a Sheet<'a>,
    pub(crate) mask: &'a Mask,
    pub(crate) whole: &'a Whole,
    pub(crate) ghost same_size: { (mask.now.width ≡ sheet.now.phase.now.width) × (mask.now.height ≡ sheet.now.phase.now.height) },
}

impl JudgedWhole<'_> {
    ghost use Rattle.certificates.specs.Verdicts.{IsFacesVerdict};
    ghost use Rattle.certificates.specs.declared.verdicts.TileVerdict.TheVariants.{Good};
    ghost use Rattle.raster_model.specs.Whole.{IsCertifiedWhole, whole_cost, whole_of};
    ghost use Rattle.std.specs.Prelude.{◌≡◌, ◌≢◌, MatchOption, pos};
    ghost use Rattle.whole_check.specs.Judged.{task_judged, told_judged};
    ghost use Rattle.whole_check.specs.Verdicts.{AllValuesStand, HasWholeHead, IsWholeVerdict, WholeDiffersAt, surface_told};

    /// The verdict.
    pub(crate) fn verdict(&self) -> WholeVerdict
        ensures { IsWholeVerdict (task_judged self.now) (told_judged self.now) result }
    {
        match self.first_difference() {
            Some(line) => WholeVerdict::Header(line),
            None => self.verdict_on_surface(),
        }
    }

    /// The number of the first line, of 2 to 5, that is not the sheet's: size, rule, ramp, steepness.
    fn first_difference(&self) -> Option<u32>
        ensures { MatchOption result (HasWholeHead (task_judged self.now) (told_judged self.now)) (WholeDiffersAt (task_judged self.now) (told_judged self.now)) }
    {
        let (sheet, whole) = (self.sheet, self.whole);
        if whole.width != sheet.phase.width || whole.height != sheet.phase.height {
            return Some(2);
        }
        if whole.rule != sheet.rule {
            return Some(3);
        }
        if whole.terms.ramp_x != sheet.terms.ramp_x || whole.terms.ramp_y != sheet.terms.ramp_y {
            return Some(4);
        }
        if whole.terms.steep != sheet.terms.steep {
            return Some(5);
        }
        None
    }

    /// The verdict where the head is the sheet's.
    fn verdict_on_surface(&self) -> WholeVerdict
        requires head { HasWholeHead (task_judged self.now) (told_judged self.now) }
        ensures { IsWholeVerdict (task_judged self.now) (told_judged self.now) result }
    {
        let values = ShownValues {
            sheet: self.sheet,
            mask: self.mask,
            values: &self.whole.values,
        };
        match first_false_value(&values) {
            Some((x, y)) => WholeVerdict::Value { x, y },
            None => self.verdict_on_faces(&values),
        }
    }

    /// The verdict where the values stand too.
    fn verdict_on_faces(&self, values: &ShownValues<'_>) -> WholeVerdict
        requires head { HasWholeHead (task_judged self.now) (told_judged self.now) }
        requires values { AllValuesStand (task_judged self.now).raster (task_judged self.now).mask (told_judged self.now).values }
        requires sheet { values.now.sheet.now ≡ self.now.sheet.now }
        requires list { values.now.values.now ≡ self.now.whole.now.values.items }
        ensures { IsWholeVerdict (task_judged self.now) (told_judged self.now) result }
    {
        match check_whole(self.sheet, self.mask, values, &self.whole.faces) {
            Ok(counted) => self.verdict_on_cost(counted),
            Err(verdict) => self.refused(verdict),
        }
    }

    /// The verdict where the faces certify the surface, which costs so much.
    fn verdict_on_cost(&self, counted: u128) -> WholeVerdict
        requires head { HasWholeHead (task_judged self.now) (told_judged self.now) }
        requires values { AllValuesStand (task_judged self.now).raster (task_judged self.now).mask (told_judged self.now).values }
        requires certified { IsCertifiedWhole (task_judged self.now).raster (task_judged self.now).mask (surface_told (task_judged self.now) (told_judged self.now)) (told_judged self.now).faces }
        requires counted { pos counted ≡ whole_cost (task_judged self.now).raster (task_judged self.now).mask (surface_told (task_judged self.now) (told_judged self.now)) }
        ensures { IsWholeVerdict (task_judged self.now) (told_judged self.now) result }
    {
        if self.whole.cost == counted {
            WholeVerdict::Accepted
        } else {
            WholeVerdict::Told {
                written: self.whole.cost,
                counted,
            }
        }
    }

    /// The verdict where the faces do not certify the surface. There are as many faces as cells.
    fn refused(&self, verdict: TileVerdict) -> WholeVerdict
        requires head { HasWholeHead (task_judged self.now) (told_judged self.now) }
        requires values { AllValuesStand (task_judged self.now).raster (task_judged self.now).mask (told_judged self.now).values }
        requires says { IsFacesVerdict (whole_of (task_judged self.now).raster) (task_judged self.now).mask 0 (surface_told (task_judged self.now) (told_judged self.now)) (told_judged self.now).faces verdict }
        requires not_good { verdict ≢ Good }
        ensures { IsWholeVerdict (task_judged self.now) (told_judged self.now) result }
    {
        match verdict {
            TileVerdict::FaceAtEdge(edge) => WholeVerdict::Face(edge),
            TileVerdict::CostDiffers { cost, bound } => WholeVerdict::Cost { cost, bound },
            TileVerdict::Good | TileVerdict::Shape | TileVerdict::Range { .. } => unreachable!(),
        }
    }
}
