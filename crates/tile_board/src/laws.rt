//! Laws of the definitions. The functions do nothing; each contract is the law.

ghost use Rattle.tile_board.specs.LastSettled.{OneScriptTellsTheRevision};
ghost use Rattle.tile_board.specs.Runs.{EveryHistoryIsLegal, HeldAreGoodAtStamp, LegalHistoriesMoveOn};

/// Whatever is called on a new board, by any analysts and with any results and surfaces handed in, its history is legal.
pub fn every_history_is_legal()
    ensures { EveryHistoryIsLegal }
{}

/// In a legal history what is shown is the newest published revision. It is no earlier than any revision that an entry
/// before it named. Each publication is of a later revision than those before it.
pub fn legal_histories_move_on()
    ensures { LegalHistoriesMoveOn }
{}

/// A held result is good under the mask at its stamp too. In its tile that mask has the same open pixels as the present
/// one.
pub fn held_are_good_at_stamp()
    ensures { HeldAreGoodAtStamp }
{}

/// If a session has one analyst, the newest published revision is the number of changes before the last settle command of
/// the script; nothing is published exactly if it has none.
pub fn one_script_tells_the_revision()
    ensures { OneScriptTellsTheRevision }
{}
