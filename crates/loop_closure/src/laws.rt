//! Laws of the definitions. The functions do nothing; each contract is the law.

ghost use Rattle.loop_closure.specs.Laws.{CyclesClose, LoopsHaveOneText, OnlyCyclesClose};

/// The third grid raised by 65536 times the cycles at each pixel that has a closure leaves closures from -32768 to 32767, and
/// no other whole numbers do.
pub fn cycles_close_the_loop()
    ensures closes { CyclesClose }
    ensures only { OnlyCyclesClose }
{}

/// What three grids leave around the loop has one text.
pub fn loops_have_one_text()
    ensures { LoopsHaveOneText }
{}
