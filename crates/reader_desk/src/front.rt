ghost use Rattle.reader_desk.specs.Fronts.{HasAllOf, last_of, last_revision, shelf_view};
ghost use Rattle.reader_desk.specs.Rules.{IsNextPen, head_of};
ghost use Rattle.std.specs.Prelude.{◌≡◌, ◌++◌, ◌∷◌, [], IfOk, MatchOption, None, OnErr, Some, false, true};
ghost use Rattle.surface_snapshots.specs.Views.{parts_of};
ghost use mathlib.Core.List.{IsPrefix};

use crate::law::{Add, Ask, FIRST_WORDS, Head, Look, NEVER, Nothing, Page, pen_of_next};
use logbook::Pen;
use std::alloc::AllocError;
use std::marker::Model;
use surface_snapshots::Snapshot;

/// A surface as an entry of the list of what was placed.
#[derive(Drop)]
pub struct Placed {
    snapshot: Snapshot,
}

impl Model for Placed {
    ghost use Rattle.surface_snapshots.specs.Parts.{Parts};
    ghost use Rattle.surface_snapshots.specs.Views.{parts_of};

    ghost Value = { Parts };

    ghost view = { λ p. parts_of p.snapshot };
}

impl Placed {
    /// A surface that is to be placed.
    pub fn new(snapshot: Snapshot) -> Placed
        ensures { result ≡ parts_of snapshot }
    {
        Placed { snapshot }
    }

    /// The surface.
    pub fn snapshot(&self) -> &Snapshot
        ensures { parts_of result.now ≡ self.now }
    {
        &self.snapshot
    }

    /// The same, which shares all that it has.
    fn share(&self) -> Result<Placed, AllocError>
        ensures { IfOk result (λ shared. shared ≡ self.now) }
    {
        Ok(Placed {
            snapshot: self.snapshot.share()?,
        })
    }
}

/// The most surfaces that are placed on one shelf.
const MOST: u64 = 1 << 62;

/// A beginning of the list of what was placed. It has the last surface of it alone.
#[derive(Drop)]
pub struct Front {
    count: u64,
    last: Option<Placed>,
    page: Page,
}

impl Model for Front {
    ghost use Rattle.reader_desk.specs.Fronts.{ShelfView, last_of, shelf_view, surfaces_in};
    ghost use Rattle.std.specs.Prelude.{◌≡◌, length};

    ghost Value = { ShelfView };

    ghost view = { λ f. shelf_view f.page.book (surfaces_in f.page.log) };

    ghost invariant = { λ f. (f.count ≡ length f.page.log) × (f.count ≡ length (surfaces_in f.page.log)) × (f.last ≡ last_of (surfaces_in f.page.log)) };
}

impl Front {
    /// The beginning at which nothing was placed.
    pub fn first(page: Page) -> Front
        requires { page.log ≡ [] }
        ensures { result ≡ shelf_view page.book [] }
    {
        Front {
            count: 0,
            last: None,
            page,
        }
    }

    /// The last surface.
    pub fn last(&self) -> Option<&Snapshot>
        ensures { MatchOption result (last_of self.now.surfaces ≡ None) (λ snapshot. last_of self.now.surfaces ≡ Some (parts_of snapshot.now)) }
    {
        match &self.last {
            Some(placed) => Some(placed.snapshot()),
            None => None,
        }
    }

    /// The revision of the last surface.
    pub fn last_revision(&self) -> Option<u32>
        ensures { result ≡ last_revision self.now.surfaces }
    {
        Some(self.last()?.revision())
    }

    /// A copy, which shares the last surface.
    pub fn share(&self) -> Result<Front, AllocError>
        ensures { IfOk result (λ copy. copy ≡ self.now) }
    {
        let last = match &self.last {
            Some(placed) => Some(placed.share()?),
            None => None,
        };
        Ok(Front {
            count: self.count,
            last,
            page: self.page.again(),
        })
    }

    /// A copy, with a last surface of its own.
    pub fn copy_with(&self, last: Placed) -> Front
        requires { Some last ≡ last_of self.now.surfaces }
        ensures { result ≡ self.now }
    {
        Front {
            count: self.count,
            last: Some(last),
            page: self.page.again(),
        }
    }

    /// Whether this is the longer one of two beginnings of the same list. The shorter one begins the longer one.
    pub fn is_longer(&self, other: &Front) -> bool
        requires { other.now.shelf ≡ self.now.shelf }
        ensures longer { result ≡ true → IsPrefix other.now.surfaces self.now.surfaces }
        ensures shorter { result ≡ false → IsPrefix self.now.surfaces other.now.surfaces }
    {
        let mut both = self.page.again();
        both.learn(&other.page);
        self.count > other.count
    }

    /// The list with one more surface. The word `head` is the list's, and `next` the pen of the next surface. It is refused
    /// if the list has no room.
    pub fn with(&self, head: &Head, next: &mut Pen, placed: Placed) -> Result<Front, AllocError>
        requires head { head.now ≡ head_of self.now.shelf }
        requires next { IsNextPen next.old self.now }
        ensures longer { IfOk result (λ longer. longer ≡ shelf_view self.now.shelf (self.now.surfaces ++ placed ∷ [])) }
        ensures next { IfOk result (IsNextPen next.new) }
        ensures unchanged { OnErr result (next.new ≡ next.old) }
    {
        if self.count >= MOST {
            return Err(AllocError);
        }
        let after = pen_of_next(head, &self.page, self.count + FIRST_WORDS + 1)?;
        let mut page = self.page.again();
        let mut offer: Ask = page.plain::<Nothing, Placed, Add>(&placed);
        let _words = head.compare_exchange::<Add, Nothing>(
            NEVER, NEVER, &mut page, &mut offer, next,
        );
        *next = after;
        Ok(Front {
            count: self.count + 1,
            last: Some(placed),
            page,
        })
    }

    /// Whoever has the pen of the next surface knows the whole list, and so all that another beginning of it has.
    pub fn has_all_of(&self, head: &Head, next: &mut Pen, other: &Front)
        requires head { head.now ≡ head_of self.now.shelf }
        requires next { IsNextPen next.old self.now }
        requires shelf { other.now.shelf ≡ self.now.shelf }
        ensures next { (next.new.book ≡ next.old.book) × (next.new.nib ≡ next.old.nib) }
        ensures all { HasAllOf other.now self.now }
    {
        let mut page = self.page.again();
        page.learn(&other.page);
        let mut offer: Ask = page.plain::<Nothing, (), Nothing>(&());
        let _words = head.compare_exchange::<Look, Nothing>(
            NEVER, NEVER, &mut page, &mut offer, next,
        );
    }
}
