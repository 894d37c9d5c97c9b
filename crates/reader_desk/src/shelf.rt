ghost use Rattle.left_right.specs.Sides.{view};
ghost use Rattle.reader_desk.specs.Seats.{NamesShelf};
ghost use Rattle.std.specs.Prelude.{◌≡◌, ◌<◌, ◌≤◌, [], All, IfOk, drop, length};

use crate::front::Front;
use crate::law::{FIRST_WORDS, pen_of_next};
use crate::names::Meets;
use crate::reader::ShelfReader;
use crate::writer::{ShelfWriter, Stand};
use left_right::writer::Writer;
use logbook::{Seen, Start, Word};
use std::alloc::{AllocError, Global};
use std::sync::Wait;

/// A place where one writer puts surfaces, and readers look at the newest.
pub struct Shelf;

impl Shelf {
    /// A new shelf on which nothing is placed: its writer, and so many readers, from 1 to 8. It fails only for lack of
    /// memory.
    pub fn open<R: Wait>(
        rt: &R,
        alloc: Global,
        readers: u32,
    ) -> Result<(ShelfWriter, Vec<ShelfReader>), AllocError>
        requires { (0 < readers) × (readers ≤ 8) }
        ensures nothing { IfOk result (λ made. made.0.surfaces ≡ []) }
        ensures readers { IfOk result (λ made. All (λ reader. reader ≡ made.0) made.1.items) }
        ensures count { IfOk result (λ made. length made.1.items ≡ readers) }
    {
        let mut writer = first_writer(rt, alloc, readers)?;
        match readers_of(alloc, &mut writer, readers) {
            Ok(readers) => Ok((writer, readers)),
            Err(AllocError) => {
                writer.close(rt);
                Err(AllocError)
            }
        }
    }
}

/// The writer of a new shelf with room for so many readers.
fn first_writer<R: Wait>(rt: &R, alloc: Global, readers: u32) -> Result<ShelfWriter, AllocError>
    requires { (0 < readers) × (readers ≤ 8) }
    ensures { IfOk result (λ writer. writer.surfaces ≡ []) }
{
    let (page, mut pen, _other) = Seen::open(Start::alone(), FIRST_WORDS, 0);
    let head = Word::tracked(FIRST_WORDS, &mut pen);
    let next = pen_of_next(&head, &page, FIRST_WORDS)?;
    let placed = Front::first(page);
    let (first, second) = (placed.share()?, placed.share()?);
    let stand = Writer::new(alloc, first, second, readers as usize)?;
    let stand = naming(rt, stand)?;
    Ok(ShelfWriter::at(stand, head, next, placed))
}

/// The stand once it names the shelf of what it shows.
fn naming<R: Wait>(rt: &R, stand: Stand) -> Result<Stand, AllocError>
    requires { drop stand.behind stand.log.items ≡ [] }
    ensures names { IfOk result (λ made. NamesShelf stand.desk.shown.value.shelf (view made.desk.place)) }
    ensures shown { IfOk result (λ made. made.desk.shown.value ≡ stand.desk.shown.value) }
{
    let (stand, shown) = stand.publish_as::<Meets, R>(rt);
    match shown {
        Ok(()) => Ok(stand),
        Err(AllocError) => {
            drop(stand.take(rt));
            Err(AllocError)
        }
    }
}

/// So many readers of a writer's shelf.
fn readers_of(
    alloc: Global,
    writer: &mut ShelfWriter,
    count: u32,
) -> Result<Vec<ShelfReader>, AllocError>
    ensures same { writer.new ≡ writer.old }
    ensures readers { IfOk result (λ readers. All (λ reader. reader ≡ writer.old) readers.items) }
    ensures count { IfOk result (λ readers. length readers.items ≡ count) }
{
    let mut readers = Vec::with_capacity(alloc, count as usize)?;
    for made in 0..count {
        readers.push(writer.reader()?)?;
    }
    Ok(readers)
}
