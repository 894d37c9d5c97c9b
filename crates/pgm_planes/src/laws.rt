//! Laws of the definitions. The functions do nothing; each contract is the law.

ghost use Rattle.pgm_planes.specs.Laws.{OnePlane, OnePlaneBreak, NoBreakOfPlane, PlaneOrBreak, AskOrNot, NoAskBehindPlane, WrittenPlaneIsRead};

/// Bytes begin with at most one plane's text, and a text spells one plane.
pub fn one_plane()
    ensures { OnePlane }
{}

/// Bytes either begin with a plane or have a first break, and at most one first break.
pub fn plane_or_break()
    ensures either { PlaneOrBreak }
    ensures not_both { NoBreakOfPlane }
    ensures one_break { OnePlaneBreak }
{}

/// Whether a reader of bytes asks for one after the last is decided, and after a plane it does not.
pub fn ask_or_not()
    ensures either { AskOrNot }
    ensures behind_plane { NoAskBehindPlane }
{}

/// What `write_plane` writes is read as the plane, whatever follows.
pub fn written_is_read()
    ensures { WrittenPlaneIsRead }
{}
