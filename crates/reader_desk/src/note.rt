ghost use Rattle.reader_desk.specs.Fronts.{ShelfView, last_revision};
ghost use Rattle.std.specs.Prelude.{◌≡◌};

use crate::front::Front;
use std::marker::Model;

/// What a writer told: all that it had placed on its shelf. It has the last surface of it.
#[derive(Drop)]
pub struct Note {
    pub(crate) front: Front,
}

impl Model for Note {
    ghost use Rattle.reader_desk.specs.Fronts.{ShelfView};

    ghost Value = { ShelfView };

    ghost view = { λ n. n.front };
}

impl Note {
    /// The revision of the last surface that the note knows; None if it knows none.
    pub fn revision(&self) -> Option<u32>
        ensures { result ≡ last_revision self.now.surfaces }
    {
        self.front.last_revision()
    }
}
