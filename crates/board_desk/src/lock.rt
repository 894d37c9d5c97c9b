//! The lock: how a seat at the desk's table takes the board, and how it gives it back.
ghost use Rattle.board_desk.specs.Rules.{Grown, Held, given};
ghost use Rattle.std.specs.Prelude.{◌≡◌, ◌≢◌, ◌<◌, None, [], ◌∷◌, true};
ghost use Rattle.tile_board.specs.Boards.{IsBoard};

use crate::law::{Give, Law, Look, Take, View};
use atomic_table::{Seat, Shared};
use raster_model::Session;
use std::snapshot::Snapshot;
use std::sync::Wait;
use tile_board::Board;

/// The seat of one pass.
pub type Place = Seat<Option<Board>, View>;

/// The table of a desk.
pub type Hall = Shared<Option<Board>, View, Snapshot<Session>, Law>;

/// The word of the next ticket.
const TICKET: usize = 0;

/// The word of the ticket that is served.
const SERVED: usize = 1;

/// The word that tells whether the board is out.
const OUT: usize = 2;

/// The word of the first bell.
const FIRST_BELL: usize = 3;

/// How many bells there are. If no more calls than that wait at once, each has a bell of its own.
const BELLS: usize = 64;

/// How many words the table has.
pub const WORDS: usize = FIRST_BELL + BELLS;

/// How often a call that waits looks at the ticket that is served before it sleeps. A call holds the board for about as long.
const LOOKS: u32 = 64;

/// Takes the board out: draws a ticket, waits until it is served, and takes the board. Calls are served in the order of
/// their tickets. A call that waits longer sleeps on its bell.
pub fn take_board<R: Wait>(rt: &R, hall: &Hall, seat: &mut Place) -> Board
    requires shape { (hall.now.table_id.words ≡ 67) × (hall.now.table_id.slots ≡ 1) }
    requires own { seat.old.table_id ≡ hall.now.table_id }
    requires empty { seat.old.me.1 ≡ [] }
    ensures own { (seat.new.table_id ≡ seat.old.table_id) × (seat.new.id ≡ seat.old.id) }
    ensures held { Held seat.old.me.0 result seat.new.me }
    ensures board { IsBoard result }
{
    let ticket = hall.fetch_add::<Look>(seat, TICKET, 1);
    let bell = bell_of(ticket);
    for _ in rt.forever() {
        let rung = hall.peek(bell);
        if !is_served_soon(hall, ticket) {
            hall.park(rt, bell, (rung % (1 << 32)) as u32);
        } else if hall.compare_exchange::<Take>(seat, OUT, 0, 1) == 0 {
            let board = hall.exchange(seat, 0, None).unwrap();
            // Its contract says what every board keeps.
            let _history = board.entries();
            return board;
        }
    }
    unreachable!()
}

/// Whether a ticket is served by now, or within a few looks.
fn is_served_soon(hall: &Hall, ticket: u64) -> bool
    requires { hall.now.table_id.words ≡ 67 }
{
    for _look in 0..LOOKS {
        if hall.peek(SERVED) == ticket {
            return true;
        }
    }
    false
}

/// Gives the board back, and serves the next ticket.
pub fn give_board(hall: &Hall, seat: &mut Place, board: Board)
    requires shape { (hall.now.table_id.words ≡ 67) × (hall.now.table_id.slots ≡ 1) }
    requires own { seat.old.table_id ≡ hall.now.table_id }
    requires out { seat.old.me.1 ≡ (0, None) ∷ [] }
    requires holds { seat.old.me.0.holds ≡ true }
    requires grown { Grown seat.old.me.0 board }
    ensures own { (seat.new.table_id ≡ seat.old.table_id) × (seat.new.id ≡ seat.old.id) }
    ensures given { seat.new.me ≡ (given seat.old.me.0 board.entries, []) }
{
    drop(hall.exchange(seat, 0, Some(board)));
    hall.store::<Give>(seat, OUT, 0);
    serve_next(hall, seat);
}

/// Serves the next ticket, and rings the bell of the call that has it. If no call has drawn it yet, there is no bell to ring:
/// the call that draws it finds it served.
fn serve_next(hall: &Hall, seat: &mut Place)
    requires shape { hall.now.table_id.words ≡ 67 }
    requires own { seat.old.table_id ≡ hall.now.table_id }
    ensures own { (seat.new.table_id ≡ seat.old.table_id) × (seat.new.id ≡ seat.old.id) }
    ensures same { seat.new.me ≡ seat.old.me }
{
    let next = hall.fetch_add::<Look>(seat, SERVED, 1).wrapping_add(1);
    if hall.peek(TICKET) != next {
        let bell = bell_of(next);
        hall.fetch_add::<Look>(seat, bell, 1);
        hall.wake_all(bell);
    }
}

/// The bell of a ticket.
fn bell_of(ticket: u64) -> usize
    ensures { (2 < result) × (result < 67) }
{
    FIRST_BELL + (ticket % BELLS as u64) as usize
}
