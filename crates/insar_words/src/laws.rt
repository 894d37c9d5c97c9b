//! Laws of the definitions. The functions do nothing; each contract is the law.

ghost use Rattle.insar_words.specs.Asked.{OneCommand};
ghost use Rattle.insar_words.specs.PlainForms.{PlainCheckIsRead, PlainCheckWholeIsRead, PlainClosureIsRead, PlainDisplacementIsRead, PlainFormsAreRead, PlainNearestIsRead, PlainPartsIsRead, PlainScreenIsRead, PlainSolvingIsRead, PlainTrialIsRead, PlainWatchIsRead, PlainWholeIsRead};
ghost use Rattle.insar_words.specs.Requests.{CheckIsRequest, CheckWholeIsRequest, GridIsRequest, OneRequest, RefusedOrAsking, TrialIsRequest, UnwrapIsRequest, WatchIsRequest, WholeIsRequest};
ghost use Rattle.std.specs.Prelude.{codes};

/// Words ask for at most one thing: one subcommand with one choice of options; and they are one request at most.
pub fn one_request()
    ensures command { OneCommand }
    ensures request { OneRequest }
{}

/// What words ask for by a command and its options is one request, and the other way round.
pub fn commands_are_requests()
    ensures unwrap { UnwrapIsRequest }
    ensures grid { GridIsRequest }
    ensures check { CheckIsRequest }
    ensures trial { TrialIsRequest }
    ensures whole { WholeIsRequest }
    ensures check_whole { CheckWholeIsRequest }
    ensures watch { WatchIsRequest }
{}

/// Words are refused or ask for something, and never both.
pub fn words_are_refused_or_ask()
    ensures { RefusedOrAsking }
{}

/// Words in plain form are read, and ask exactly what they say: of any command, and by what the pairs set of each of the
/// twelve.
pub fn plain_forms_are_read()
    ensures any { PlainFormsAreRead }
    ensures unwrap { PlainSolvingIsRead (codes "unwrap") }
    ensures grid { PlainSolvingIsRead (codes "grid") }
    ensures check { PlainCheckIsRead }
    ensures trial { PlainTrialIsRead }
    ensures screen { PlainScreenIsRead }
    ensures closure { PlainClosureIsRead }
    ensures displacement { PlainDisplacementIsRead }
    ensures whole { PlainWholeIsRead }
    ensures check_whole { PlainCheckWholeIsRead }
    ensures watch { PlainWatchIsRead }
    ensures nearest { PlainNearestIsRead }
    ensures parts { PlainPartsIsRead }
{}
