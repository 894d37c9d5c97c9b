//! Laws of the definitions. The functions do nothing; each contract is the law.

ghost use Rattle.text_parts.specs.Reading.{CutTextHasNoBreak, TextOrBrokenLine};
ghost use Rattle.whole_text.specs.Length.{WholeTextsAreShort};
ghost use Rattle.whole_text.specs.Reading.{BrokenWholeLineIsOne, WholeTextsAreUnique};
ghost use Rattle.whole_text.specs.Text.{IsWholeText};

/// No two surfaces over the whole raster have one text: those with one text have one size, rule, cost and list of faces, the
/// same terms, and the same values on the raster.
pub fn whole_texts_are_unique()
    ensures { WholeTextsAreUnique }
{}

/// Bytes have at most one first line that breaks the form, and a text of the form has none.
pub fn broken_whole_line_is_one()
    ensures { BrokenWholeLineIsOne }
{}

/// Bytes, so many of which are let out, are a text of the form and are all let out, or they have a first line that breaks it,
/// or the limit cuts a line before any is broken: one of the three.
pub fn whole_or_broken_line()
    ensures either { TextOrBrokenLine IsWholeText }
    ensures cut { CutTextHasNoBreak IsWholeText }
{}

/// How long the text of a surface can be, so that no reader's limit cuts one.
pub fn whole_texts_are_short()
    ensures { WholeTextsAreShort }
{}
