//! Laws of the definitions. The functions do nothing; each contract is the law. One calls the law on which it rests.

ghost use Rattle.insar_commands.specs.Causes.{BrokenBytesAreNoInput};
ghost use Rattle.insar_commands.specs.Check.{AnswersAreAccepted, BytesHaveOneVerdict};
ghost use Rattle.insar_commands.specs.CheckWhole.{AcceptedWholesAreLeast, BytesHaveOneWholeVerdict, WholesAreAccepted};
ghost use Rattle.insar_commands.specs.Grid.{LastSurfacesAreBest};
ghost use Rattle.insar_commands.specs.Trial.{TrialsHaveOneText};
ghost use Rattle.insar_commands.specs.Whole.{ReportsBoundTheLeast, TheFirstMaskIsThatOfRevision0};

use session_script::laws::tiled_session_is_whole;

/// Bytes that have a break for which a request is refused are not of the form that it reads.
pub fn broken_bytes_are_no_input()
    ensures { BrokenBytesAreNoInput }
{}

/// `check` accepts what `unwrap` writes for a session: if the session's text comes before a report that the headline
/// is about, the verdict on these bytes is `Accepted`. None is longer than `check` reads.
pub fn answers_are_accepted()
    ensures { AnswersAreAccepted }
{}

/// Bytes have one verdict, whatever session and report they are the text of. So `check` of a report that `unwrap` wrote never
/// answers 1.
pub fn bytes_have_one_verdict()
    ensures { BytesHaveOneVerdict }
{}

/// `check-whole` accepts what `whole` writes for a session, in the same way.
pub fn wholes_are_accepted()
    ensures { WholesAreAccepted }
{}

/// A whole surface that `check-whole` accepts is least of all for the session before it, whoever wrote it.
pub fn accepted_wholes_are_least()
    ensures { AcceptedWholesAreLeast }
{}

/// Bytes have one verdict, whatever session and surface they are the text of.
pub fn bytes_have_one_whole_verdict()
    ensures { BytesHaveOneWholeVerdict }
{}

/// The surface that costs least of all costs no less than the tiles of one that a report of the same session publishes for a
/// revision whose mask is the first, as that of revision 0 is, and no more than its tiles and its seams.
pub fn reports_bound_the_least()
    ensures bound { ReportsBoundTheLeast }
    ensures first { TheFirstMaskIsThatOfRevision0 }
{
    tiled_session_is_whole();
}

/// The last surface of a session's report, whose grid `grid` writes, is the best at the mask of the newest published revision;
/// there is none exactly if nothing was published.
pub fn last_surfaces_are_best()
    ensures { LastSurfacesAreBest }
{}

/// The words of a trial determine the four lines.
pub fn trials_have_one_text()
    ensures { TrialsHaveOneText }
{}
