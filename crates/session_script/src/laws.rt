//! Laws of the definitions. The functions do nothing; each contract is the law.

ghost use Rattle.session_script.specs.Laws.{NoBreakOfSession, NoFaultOfSession, OneSessionBreak, OneFault, OneSession, SessionOrFault, WrittenSessionIsRead};
ghost use Rattle.session_script.specs.Laws.{LaidSessionOrFault, NoBreakOfLaidSession, NoFaultOfLaidSession, OneLaidBreak, OneLaidFault, OneLaidSession, TiledSessionIsWhole};

/// Bytes either are a session's text and then others, or have a fault, and at most one first break.
pub fn session_or_fault()
    ensures either { SessionOrFault }
    ensures not_both { NoBreakOfSession }
    ensures one_break { OneSessionBreak }
{}

/// Bytes are a session's text and then others, or they have one fault, which may be that they are too many.
pub fn one_fault()
    ensures not_both { NoFaultOfSession }
    ensures one_fault { OneFault }
{}

/// Bytes are at most one session's text, which ends in one place.
pub fn one_session()
    ensures { OneSession }
{}

/// What `write_session` writes is read as the same session.
pub fn written_is_read()
    ensures { WrittenSessionIsRead }
{}

/// For each layout, bytes either are a session's text and then others, or have a fault, and at most one first break.
pub fn laid_session_or_fault()
    ensures either { LaidSessionOrFault }
    ensures not_both { NoBreakOfLaidSession }
    ensures one_break { OneLaidBreak }
{}

/// For each layout, bytes are a session's text and then others, or they have one fault.
pub fn one_laid_fault()
    ensures not_both { NoFaultOfLaidSession }
    ensures one_fault { OneLaidFault }
{}

/// For each layout, bytes are at most one session's text, which ends in one place.
pub fn one_laid_session()
    ensures { OneLaidSession }
{}

/// What is read as a session in tiles is read as the same session without tiles.
pub fn tiled_session_is_whole()
    ensures { TiledSessionIsWhole }
{}
