//! The rule of the desk's table, and what each kind of step tells. Only the proofs see this: no value of `View` is
//! made.
//!
//! The table has one slot, for the board. Its words are the next ticket (0), the ticket that is served (1), whether the
//! board is out (2: 0 if it is at home, 1 if it is out), and then the bells, on which calls sleep until their turn.

use atomic_table::{Join, Play, Split, TableRule};
use raster_model::Session;
use std::collections::LinkedList;
use std::snapshot::Snapshot;
use tile_board::{Board, Entry};

/// What a seat claims: a history that it has seen, and its analyst's entries, if it has an analyst.
pub struct Claim {
    pub analyst: Option<u32>,
    pub seen: LinkedList<Entry>,
    pub mine: LinkedList<Entry>,
}

/// What a seat at the table knows.
pub struct View {
    /// The board's session; None after another seat took this one in.
    pub session: Option<Session>,
    pub own: Claim,
    /// The claim of a seat that this one took in.
    pub beside: Claim,
    /// Whether the seat has the board.
    pub holds: bool,
    /// Whether the seat gives out the analysts' numbers.
    pub gives: bool,
    /// The number that the seat gives out next.
    pub next: u32,
}

/// The desk's rule. It reads the session that the table was made for.
pub struct Law;

impl TableRule<Option<Board>, View, Snapshot<Session>> for Law {
    ghost use Rattle.board_desk.specs.Rules.{IsRuled, opener};

    ghost holds = { λ key. IsRuled key.value };

    ghost first = { λ key. opener key.value };
}

/// A step that does not move the board: it draws a ticket, serves one, rings a bell, or only loads. After it a seat
/// knows that the claim beside its own stands in what it has seen.
pub struct Look;

impl Play<Option<Board>, View> for Look {
    ghost use Rattle.board_desk.specs.Rules.{looked};

    ghost then = { looked };
}

/// A load that makes a seat.
pub struct Sit;

impl Play<Option<Board>, View> for Sit {
    ghost use Rattle.board_desk.specs.Rules.{sat};

    ghost then = { sat };
}

/// The exchange that takes the board out. The seat has then seen the board's history.
pub struct Take;

impl Play<Option<Board>, View> for Take {
    ghost use Rattle.board_desk.specs.Rules.{took};

    ghost then = { took };
}

/// The store that marks the board's history and gives the board back.
pub struct Give;

impl Play<Option<Board>, View> for Give {
    ghost use Rattle.board_desk.specs.Rules.{gave};

    ghost then = { gave };
}

/// A new seat with the next analyst's number.
pub struct Enroll;

impl Split<View> for Enroll {
    ghost use Rattle.board_desk.specs.Rules.{enrolled, enrolling};

    ghost left = { enrolling };

    ghost right = { enrolled };
}

/// A new seat with no analyst, which has seen as much as the given one.
pub struct Copied;

impl Split<View> for Copied {
    ghost use Rattle.board_desk.specs.Rules.{plain_copy};

    ghost left = { λ v. v };

    ghost right = { plain_copy };
}

/// A seat takes in another seat, and has then seen the longer of both histories.
pub struct Return;

impl Join<View> for Return {
    ghost use Rattle.board_desk.specs.Rules.{longer_of, spent};

    ghost both = { longer_of };

    ghost spent = { spent };
}

/// The seat that has the board takes in another seat, with its claim.
pub struct Settle;

impl Join<View> for Settle {
    ghost use Rattle.board_desk.specs.Rules.{beside_of, spent};

    ghost both = { beside_of };

    ghost spent = { spent };
}
