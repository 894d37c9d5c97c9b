//! Laws of the definitions. The functions do nothing; each contract is the law.

ghost use Rattle.nearest_surface.specs.Laws.{NearestIsOwn, NearestIsUnique, NoneIsNearer, OneAnswer};

/// Any other number that differs from the phase by whole cycles is further away than the nearest, or as far away and above it.
pub fn none_is_nearer()
    ensures { NoneIsNearer }
{}

/// A phase has one surface that is nearest to a given one.
pub fn nearest_is_unique()
    ensures { NearestIsUnique }
{}

/// A given grid has a nearest surface or one refusal, never both.
pub fn one_answer()
    ensures { OneAnswer }
{}

/// The nearest surface is the one that is nearest to itself.
pub fn nearest_is_own()
    ensures { NearestIsOwn }
{}
