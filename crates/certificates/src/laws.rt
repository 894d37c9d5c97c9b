//! Laws of the verdicts. The functions do nothing; each contract is the law.

ghost use Rattle.certificates.specs.SeamVerdicts.{SeamsHaveOneVerdict};
ghost use Rattle.certificates.specs.Verdicts.{FacesHaveOneVerdict, TilesHaveOneVerdict};

/// The relations that the checks meet determine the verdict: no input has two.
pub fn verdicts_are_unique()
    ensures faces { FacesHaveOneVerdict }
    ensures tiles { TilesHaveOneVerdict }
    ensures seams { SeamsHaveOneVerdict }
{}
