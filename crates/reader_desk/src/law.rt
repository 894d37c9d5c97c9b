//! The rule of the list of what was placed, which only grows. Only the proofs see that list: the code keeps its length
//! and its last surface. The writer has the pen of the word for the next surface, so that nobody else adds to the list.

ghost use Rattle.logbook.specs.Pages.{may_write, nib};
ghost use Rattle.reader_desk.specs.Rules.{head_of};
ghost use Rattle.std.specs.Prelude.{◌≡◌, ◌<◌, ◌^◌, IfOk};

use crate::front::Placed;
use logbook::{Gain, Offer, Pen, Plain, Play, Rule, Seen, Word};
use std::alloc::AllocError;

/// The rule: the first word counts the words, and each surface has one.
pub struct Law;

impl Rule<Option<Placed>, u64> for Law {
    ghost use Rattle.reader_desk.specs.Rules.{IsCounted};
    ghost use Rattle.std.specs.Prelude.{[]};
    ghost use base.Fml.{ftrue};

    ghost holds = { λ cells log. IsCounted cells log };

    ghost first = { [] };

    ghost hinted = { λ n log. Unit {0} };

    ghost shows = { λ log. [] };

    ghost keeps = { λ names log. ftrue };

    ghost moves = { λ ask before after answer. Unit {0} };
}

/// Callers trade nothing.
pub struct Nothing;

impl Gain<Option<Placed>, u64> for Nothing {
    ghost use base.Fml.{ftrue};

    ghost after = { λ names about answer. ftrue };
}

/// The step that adds a word.
pub struct Room;

impl Play<Option<Placed>, u64> for Room {
    ghost use Rattle.reader_desk.specs.Rules.{AddsWord};

    ghost then = { AddsWord };
}

/// The step that adds a surface.
pub struct Add;

impl Play<Option<Placed>, u64> for Add {
    ghost use Rattle.reader_desk.specs.Rules.{AddsNext};

    ghost then = { AddsNext };
}

/// What that step asks for: the surface.
impl Plain<Placed, Option<Placed>, u64> for Add {
    ghost use Rattle.std.specs.Prelude.{None, Some};

    ghost ask = { λ placed. Some placed };

    ghost state = { λ placed. None };
}

/// A step that tells the writer that it knows the whole list.
pub struct Look;

impl Play<Option<Placed>, u64> for Look {
    ghost use Rattle.reader_desk.specs.Rules.{IsAll};

    ghost then = { IsAll };
}

/// What a step asks for that adds no surface.
impl Plain<(), Option<Placed>, u64> for Nothing {
    ghost use Rattle.std.specs.Prelude.{None};

    ghost ask = { λ none. None };

    ghost state = { λ none. None };
}

/// A beginning of the list that was seen. It has no bytes.
pub type Page = Seen<Option<Placed>, u64, Law>;

/// The word that holds how many words there are.
pub type Head = Word<Option<Placed>, u64, Law>;

/// What a step asks of the list.
pub type Ask = Offer<Option<Placed>, u64, Law, Nothing>;

/// How many words there are before the first is added for a surface.
pub const FIRST_WORDS: u64 = 2;

/// A number that the first word never is. To exchange it for itself is a step that writes nothing.
pub const NEVER: u64 = 0;

/// The pen of a word that is added, if there are so many words. It has the right to write that word, and so to add the
/// surface that comes with it.
pub fn pen_of_next(head: &Head, page: &Page, count: u64) -> Result<Pen, AllocError>
    requires head { head.now ≡ head_of page.now.book }
    requires few { count < 2 ^ 63 }
    ensures { IfOk result (λ pen. (pen.book ≡ page.now.book) × (pen.nib ≡ nib may_write count 0)) }
{
    let mut page = page.again();
    let mut offer: Ask = page.plain::<Nothing, (), Nothing>(&());
    let mut pen = page.no_pen();
    let found = head.compare_exchange::<Room, Nothing>(
        count,
        count + 1,
        &mut page,
        &mut offer,
        &mut pen,
    );
    if found != count {
        return Err(AllocError);
    }
    let _word: Head = Word::tracked(0, &mut pen);
    Ok(pen)
}
