ghost use Rattle.left_right.specs.Sides.{view};
ghost use Rattle.reader_desk.specs.Fronts.{HasAllOf, last_revision, shelf_view};
ghost use Rattle.reader_desk.specs.Rules.{IsNextPen, head_of};
ghost use Rattle.reader_desk.specs.Seats.{NamesShelf};
ghost use Rattle.std.specs.Prelude.{◌≡◌, ◌++◌, ◌∷◌, [], IfOk, MatchResult};
ghost use Rattle.surface_snapshots.specs.Views.{parts_of};

use crate::front::{Front, Placed};
use crate::law::Head;
use crate::names::{Copied, Meets, OneShelf, Replaced};
use crate::note::Note;
use crate::reader::{Seat, ShelfReader};
use left_right::writer::Writer;
use logbook::Pen;
use std::alloc::AllocError;
use std::marker::Model;
use std::sync::Wait;
use surface_snapshots::Snapshot;

/// What readers are shown, as the writer holds it.
pub(crate) type Stand = Writer<Front, Front, Option<Front>, OneShelf>;

/// The writer of a shelf. It knows the list of all that it placed, and has the last surface of it. It is not `Drop`: end it
/// by `close`.
pub struct ShelfWriter {
    stand: Option<Stand>,
    head: Head,
    /// The right to add the next surface.
    next: Pen,
    placed: Front,
}

impl Model for ShelfWriter {
    ghost use Rattle.reader_desk.specs.Fronts.{ShelfView};
    ghost use Rattle.reader_desk.specs.Rules.{IsNextPen, head_of};
    ghost use Rattle.left_right.specs.Sides.{view as view_of};
    ghost use Rattle.reader_desk.specs.Seats.{NamesShelf};
    ghost use Rattle.std.specs.Prelude.{◌≡◌, IsSomeAnd};

    ghost Value = { ShelfView };

    ghost view = { λ w. w.placed };

    ghost invariant = { λ w. (w.head ≡ head_of w.placed.shelf) × IsNextPen w.next w.placed × IsSomeAnd w.stand (λ stand. NamesShelf w.placed.shelf (view_of stand.desk.place) × (stand.desk.shown.value.shelf ≡ w.placed.shelf)) };
}

impl ShelfWriter {
    /// The writer of a new shelf.
    pub(crate) fn at(stand: Stand, head: Head, next: Pen, placed: Front) -> ShelfWriter
        requires names { NamesShelf placed.shelf (view stand.desk.place) }
        requires shown { stand.desk.shown.value.shelf ≡ placed.shelf }
        requires head { head ≡ head_of placed.shelf }
        requires next { IsNextPen next placed }
        ensures { result ≡ placed }
    {
        ShelfWriter {
            stand: Some(stand),
            head,
            next,
            placed,
        }
    }

    /// A reader of the shelf, which knows what the writer has placed.
    pub(crate) fn reader(&mut self) -> Result<ShelfReader, AllocError>
        ensures same { self.new ≡ self.old }
        ensures reader { IfOk result (λ reader. reader ≡ self.old) }
    {
        let known = self.placed.share()?;
        let seat = match &mut self.stand {
            Some(stand) => seat_at(stand)?,
            None => unreachable!(),
        };
        Ok(ShelfReader::at(seat, known))
    }

    /// Places a surface, which readers may see from then on. It waits for readers that are in the middle of a read. It is
    /// refused only for lack of memory, and then nothing was placed.
    pub fn place<R: Wait>(&mut self, rt: &R, snapshot: Snapshot) -> Result<(), AllocError>
        ensures { MatchResult result (λ _. self.new ≡ shelf_view self.old.shelf (self.old.surfaces ++ parts_of snapshot ∷ [])) (λ _. self.new ≡ self.old) }
    {
        let shared = snapshot.share()?;
        let copy = Placed::new(shared);
        let placed = Placed::new(snapshot);
        let longer = self.placed.with(&self.head, &mut self.next, placed)?;
        let shown = longer.copy_with(copy);
        self.placed = longer;
        self.show(rt, shown);
        Ok(())
    }

    /// Shows readers all that was placed. If there is no memory for that, they go on seeing what they saw, until more is
    /// placed.
    fn show<R: Wait>(&mut self, rt: &R, shown: Front)
        requires { shown ≡ self.old }
        ensures { self.new ≡ self.old }
    {
        let Some(stand) = self.stand.take() else {
            unreachable!();
        };
        let stand = shown_by(rt, stand, shown);
        // The place is empty, so no other stand is there to end.
        if let Some(other) = self.stand.replace(stand) {
            drop(other.take(rt));
        }
    }

    /// The writer alone places surfaces on its shelf: it has placed all that a reader of the shelf knows, in that order. It
    /// takes one step, and changes nothing.
    pub fn has_all_of(&mut self, reader: &ShelfReader)
        requires { reader.now.shelf ≡ self.old.shelf }
        ensures all { HasAllOf reader.now self.old }
        ensures unchanged { self.new ≡ self.old }
    {
        self.placed
            .has_all_of(&self.head, &mut self.next, reader.known());
    }

    /// Tells all that was placed, for readers of the shelf to learn. It is refused only if too many share the last surface.
    pub fn tell(&self) -> Result<Note, AllocError>
        ensures { IfOk result (λ note. note ≡ self.now) }
    {
        Ok(Note {
            front: self.placed.share()?,
        })
    }

    /// The revision of the last surface that was placed; None if none was.
    pub fn last_placed(&self) -> Option<u32>
        ensures { result ≡ last_revision self.now.surfaces }
    {
        self.placed.last_revision()
    }

    /// Ends the writer. It waits for readers that are in the middle of a read. Readers can be used further, and see what
    /// they know.
    pub fn close<R: Wait>(self, rt: &R) {
        let ShelfWriter {
            stand,
            head: _head,
            next: _next,
            placed: _placed,
        } = self;
        if let Some(stand) = stand {
            drop(stand.take(rt));
        }
    }
}

/// The stand with a longer beginning to show, if there is memory for it.
fn shown_by<R: Wait>(rt: &R, mut stand: Stand, longer: Front) -> Stand
    requires names { NamesShelf longer.shelf (view stand.desk.place) }
    requires shown { stand.desk.shown.value.shelf ≡ longer.shelf }
    ensures names { NamesShelf longer.shelf (view result.desk.place) }
    ensures shown { result.desk.shown.value.shelf ≡ longer.shelf }
{
    match stand.append(longer) {
        Ok(()) => {
            let (stand, _shown) = stand.publish_as::<Meets, R>(rt);
            stand
        }
        Err(_longer) => stand,
    }
}

/// A seat at the stand, which names the shelf that the stand names.
fn seat_at(stand: &mut Stand) -> Result<Seat, AllocError>
    ensures same { (view stand.new.desk.place ≡ view stand.old.desk.place) × (stand.new.desk.shown ≡ stand.old.desk.shown) }
    ensures seat { IfOk result (λ seat. view seat.place ≡ view stand.old.desk.place) }
{
    let mut seat = stand.factory().reader()?;
    seat.learn::<Replaced>(stand.tell::<Copied>());
    Ok(seat)
}
