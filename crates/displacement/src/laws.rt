//! Laws of the definitions. The functions do nothing; each contract is the law.

ghost use Rattle.displacement.specs.Laws.{CyclesAreHalfWavelengths, DisplacementsAreUnique, OneAnswer};

/// A grid has one grid of displacements.
pub fn displacements_are_unique()
    ensures { DisplacementsAreUnique }
{}

/// A grid has displacements or one refusal, never both, lack of memory aside.
pub fn one_answer()
    ensures { OneAnswer }
{}

/// In blocks of one pixel, so many whole cycles above the reference are so many half wavelengths, rounded down.
pub fn cycles_are_half_wavelengths()
    ensures { CyclesAreHalfWavelengths }
{}
