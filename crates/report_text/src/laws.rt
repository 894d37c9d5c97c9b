//! Laws of the definitions. The functions do nothing; each contract is the law.

ghost use Rattle.report_text.specs.Certified.{CertifiedReportsAreBest};
ghost use Rattle.report_text.specs.Contents.{IsReportText};
ghost use Rattle.report_text.specs.Length.{CertifiedReportsAreShort, LegalHistoriesKeepFew};
ghost use Rattle.report_text.specs.Reading.{BrokenReportLineIsOne};
ghost use Rattle.report_text.specs.Same.{ReportTextsAreUnique};
ghost use Rattle.text_parts.specs.Reading.{CutTextHasNoBreak, TextOrBrokenLine};

/// Each published surface of a certified report is the best at the mask of its revision: congruent, least in each
/// tile among all congruent surfaces, and at the seams under all offsets of the regions. (Costantini 1998; Chen and
/// Zebker 2002.)
pub fn certified_reports_are_best()
    ensures { CertifiedReportsAreBest }
{}

/// A legal history keeps at most one result of each tile, and one more of each after each change of the mask.
pub fn legal_histories_keep_few()
    ensures { LegalHistoriesKeepFew }
{}

/// The text of a certified report has at most 4,294,967,296 bytes, which are all that is read of a report. The weights'
/// maxval is one of 16 bits, as that of any session that is read.
pub fn certified_reports_are_short()
    ensures { CertifiedReportsAreShort }
{}

/// No two reports have one text: reports with one text have one head and the same items, and their surfaces have the
/// same costs, values on the raster, faces of each tile, and flows.
pub fn report_texts_are_unique()
    ensures { ReportTextsAreUnique }
{}

/// Bytes have at most one first line that breaks the form of a report, and the text of a report has none.
pub fn broken_report_line_is_one()
    ensures { BrokenReportLineIsOne }
{}

/// Bytes, so many of which are let out, are the text of a report and are all let out, or they have a first line that breaks
/// the form, or the limit cuts a line before any is broken: one of the three.
pub fn report_or_broken_line()
    ensures either { TextOrBrokenLine IsReportText }
    ensures cut { CutTextHasNoBreak IsReportText }
{}
