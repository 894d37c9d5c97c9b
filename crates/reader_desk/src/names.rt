//! What readers and the writer have in common: a copy of the newest beginning, under the rule that all of them name one
//! shelf.

use crate::front::Front;
use atomic_table::{Join, Split};
use crossbeam_utils::rule::{Outcome, Protocol};
use left_right::Absorb;
use std::alloc::AllocError;

impl Absorb<Front> for Front {
    type State = Front;

    ghost state = { λ front. front };

    ghost applied = { λ _ front. front };

    fn absorb_first(&mut self, operation: &Front, _other: &Front) -> Result<(), AllocError> {
        *self = operation.share()?;
        Ok(())
    }

    fn absorb_second(&mut self, operation: Front, _other: &Front) -> Result<(), Front> {
        *self = operation;
        Ok(())
    }
}

/// The rule: what is shown is of the shelf that a view names. A view that names none knows nothing.
pub struct OneShelf;

impl Protocol<Front, Option<Front>> for OneShelf {
    ghost use Rattle.reader_desk.specs.Rules.{AreOfShelf};
    ghost use Rattle.std.specs.Prelude.{None};

    ghost holds = { λ shown views. AreOfShelf shown.shelf views };

    ghost first = { None };
}

/// A read, or a change of what is shown: it is of the shelf that the view names, and the view names that shelf then.
pub struct Meets;

impl Outcome<Front, Option<Front>> for Meets {
    ghost use Rattle.reader_desk.specs.Rules.{Met};

    ghost then = { Met };
}

/// A view is copied.
pub struct Copied;

impl Split<Option<Front>> for Copied {
    ghost left = { λ view. view };

    ghost right = { λ view. view };
}

/// A view takes the place of another.
pub struct Replaced;

impl Join<Option<Front>> for Replaced {
    ghost use Rattle.std.specs.Prelude.{None};

    ghost both = { λ _ view. view };

    ghost spent = { None };
}
