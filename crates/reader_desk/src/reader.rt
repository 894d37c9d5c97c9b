ghost use Rattle.left_right.specs.Sides.{view};
ghost use Rattle.reader_desk.specs.Fronts.{HasAllOf, Learned, ShelfView, last_of, last_revision};
ghost use Rattle.reader_desk.specs.Seats.{NamesShelf};
ghost use Rattle.std.specs.Prelude.{◌≡◌, IfSome, MatchOption, None, Some};
ghost use Rattle.surface_snapshots.specs.Views.{parts_of};

use crate::front::Front;
use crate::names::{Meets, OneShelf};
use crate::note::Note;
use left_right::reader::Reader;
use std::marker::Model;
use surface_snapshots::Snapshot;

/// The place of one reader at the shelf.
pub(crate) type Seat = Reader<Front, Option<Front>, OneShelf>;

/// A reader of a shelf. It knows a beginning of the list of what was placed there, and has the last surface of it.
#[derive(Drop)]
pub struct ShelfReader {
    seat: Option<Seat>,
    known: Front,
}

impl Model for ShelfReader {
    ghost use Rattle.reader_desk.specs.Fronts.{ShelfView};
    ghost use Rattle.left_right.specs.Sides.{view as view_of};
    ghost use Rattle.reader_desk.specs.Seats.{NamesShelf};
    ghost use Rattle.std.specs.Prelude.{IsSomeAnd};

    ghost Value = { ShelfView };

    ghost view = { λ r. r.known };

    ghost invariant = { λ r. IsSomeAnd r.seat (λ seat. NamesShelf r.known.shelf (view_of seat.place)) };
}

impl ShelfReader {
    ghost use Rattle.std.specs.Borrow.{sem};
    ghost use Rattle.reader_desk.specs.Reads.{EndsRead};

    /// A reader that knows as much as the beginning `known`. Its seat names the same shelf.
    pub(crate) fn at(seat: Seat, known: Front) -> ShelfReader
        requires { NamesShelf known.shelf (view seat.place) }
        ensures { result ≡ known }
    {
        ShelfReader {
            seat: Some(seat),
            known,
        }
    }

    /// Takes in what the writer told. The reader knows the longer of both lists then, which begins with the shorter one.
    /// It waits for nobody, and needs no memory.
    pub fn learn(&mut self, note: Note)
        requires { note.shelf ≡ self.old.shelf }
        ensures { Learned self.old note self.new }
    {
        if note.front.is_longer(&self.known) {
            self.known = note.front;
        }
    }

    /// Looks at what is shown, and knows it then, if it is longer than what was known. The reader still knows all that it
    /// knew. It takes no lock, waits for nobody, and needs no memory. If the writer is gone, or too many share the last
    /// surface, nothing changes. (Ramalhete and Correia, Left-Right, 2015, for reads that never wait.)
    pub fn look(&mut self)
        ensures { HasAllOf self.old self.new }
    {
        let Some(seat) = self.seat.take() else {
            unreachable!();
        };
        let (seat, shown) = shown_to(seat, &self.known);
        self.seat = Some(seat);
        if let Some(front) = shown {
            self.known = front;
        }
    }

    /// What the reader knows.
    pub(crate) fn known(&self) -> &Front
        ensures { result.now ≡ self.now }
    {
        &self.known
    }

    /// The last surface that the reader knows; None if it knows none.
    pub fn last_known(&self) -> Option<&Snapshot>
        ensures { MatchOption result (last_of self.now.surfaces ≡ None) (λ snapshot. last_of self.now.surfaces ≡ Some (parts_of snapshot.now)) }
    {
        self.known.last()
    }

    /// Looks, and gives the last surface that the reader knows then. Once nothing borrows the answer, the reader still knows
    /// all that it knew before, and the answer is the last of what it knows (`ends`). So the answer is no older than what was
    /// known. `answer` says the same of some list, while it is borrowed.
    pub fn read(&mut self) -> Option<&Snapshot>
        ensures* ends { sem 𝓛 (EndsRead self.entry result) }
        ensures answer { (known : ShelfView) × HasAllOf self.old known × MatchOption result (last_of known.surfaces ≡ None) (λ snapshot. last_of known.surfaces ≡ Some (parts_of snapshot.now)) }
    {
        self.look();
        self.last_known()
    }

    /// The revision of the last surface that the reader knows; None if it knows none.
    pub fn known_revision(&self) -> Option<u32>
        ensures { result ≡ last_revision self.now.surfaces }
    {
        self.known.last_revision()
    }
}

/// What is shown to a reader that knows `known`, if it is longer.
fn shown_to(seat: Seat, known: &Front) -> (Seat, Option<Front>)
    requires { NamesShelf known.now.shelf (view seat.place) }
    ensures seat { NamesShelf known.now.shelf (view result.0.place) }
    ensures shown { IfSome result.1 (HasAllOf known.now) }
{
    match seat.enter_as::<Meets>() {
        Ok(reading) => {
            let shown = longer_than(known, reading.get());
            (reading.leave(), shown)
        }
        Err(seat) => (seat, None),
    }
}

/// What is shown, if it is longer than what is known and its last surface can be shared.
fn longer_than(known: &Front, shown: &Front) -> Option<Front>
    requires { known.now.shelf ≡ shown.now.shelf }
    ensures { IfSome result (HasAllOf known.now) }
{
    if shown.is_longer(known) {
        shown.share().ok()
    } else {
        None
    }
}
