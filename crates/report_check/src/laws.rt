//! Laws of the definitions. The functions do nothing; each contract is the law.

ghost use Rattle.report_check.specs.Same.{AcceptanceIsOfTexts, EqualReportsAreCertifiedAlike, VerdictIsOfTexts};
ghost use Rattle.report_check.specs.Verdicts.{ReportsHaveOneVerdict};

/// What `check_report` says of a report is determined by the report and the session.
pub fn reports_have_one_verdict()
    ensures { ReportsHaveOneVerdict }
{}

/// A report that equals one that is certified for a session is certified for it.
pub fn equal_reports_are_certified_alike()
    ensures { EqualReportsAreCertifiedAlike }
{}

/// Whether a report is certified depends on what it and the session tell, and on nothing else: if one is, each
/// report that equals it is certified for each session that tells the same.
pub fn acceptance_is_of_texts()
    ensures { AcceptanceIsOfTexts }
{}

/// What `check_report` says of a report depends on what it and the session tell, and on nothing else: of each report
/// that equals it, the same is said for each session that tells the same.
pub fn verdict_is_of_texts()
    ensures { VerdictIsOfTexts }
{}
