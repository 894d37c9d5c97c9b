//! Laws of the definitions. The functions do nothing; each contract is the law.

ghost use Rattle.whole_check.specs.Same.{AcceptanceIsOfWholes, CertifiedWholesAreAccepted};
ghost use Rattle.whole_check.specs.Verdicts.{WholesHaveOneVerdict};

/// What `check_whole_text` says of a text is determined by the text and by what is unwrapped.
pub fn wholes_have_one_verdict()
    ensures { WholesHaveOneVerdict }
{}

/// A text that tells the same as one that is certified is certified.
pub fn acceptance_is_of_texts()
    ensures { AcceptanceIsOfWholes }
{}

/// What is told of an anchored surface that is certified over the whole raster, with its cost, is certified.
pub fn certified_wholes_are_accepted()
    ensures { CertifiedWholesAreAccepted }
{}
