ghost use Rattle.insar_ports.specs.Calls.{Moves, call_of};
ghost use Rattle.insar_ports.specs.Feeding.{limit_of, source_name};
ghost use Rattle.std.specs.Prelude.{◌≡◌, ℕ, List};
ghost use Rattle.text_parts.specs.Reading.{IsReaderOf};
ghost use Rattle.text_parts.specs.Steps.{EndsItself, ReadsText, place_of};

use crate::read::expect_end;
use insar_ports::{Feed, Source};
use std::alloc::Global;
use text_lines::{LineFault, Lines};

/// A text in lines that has an end of its own.
pub trait LinedText: Drop {
    /// The form of such texts.
    ghost form: { List ℕ → Type 0 };

    /// The text of what was read.
    ghost text: { Self → List ℕ };

    /// Its numbers are in their ranges.
    ghost in_range: { Self → Type 0 };

    /// Reads the lines of such a text, which tell where it ends.
    fn read_lines<S: Source>(
        alloc: Global,
        feed: &mut Feed<S>,
        lines: &mut Lines,
    ) -> Result<Self, LineFault>
        ensures ends { EndsItself form }
        ensures reads { ReadsText form in_range text (place_of S.left S.faults feed.old lines.old) (place_of S.left S.faults feed.new lines.new) result };

    /// What is read has a text of the form.
    ghost formed: { (it : Self) → in_range it → form (text it) };
}

/// Reads such a text and the end of the input. Lines are numbered from 1.
pub fn read_to_end<T: LinedText, S: Source>(
    alloc: Global,
    feed: &mut Feed<S>,
) -> Result<T, LineFault>
    ensures same_source { source_name feed.new ≡ source_name feed.old }
    ensures same_limit { limit_of feed.new ≡ limit_of feed.old }
    ensures moves { Moves (call_of S.left S.faults feed.old feed.new) }
    ensures reads { IsReaderOf T.form T.in_range T.text (call_of S.left S.faults feed.old feed.new) result }
{
    let mut lines = Lines::new(alloc);
    let text = T::read_lines(alloc, feed, &mut lines)?;
    expect_end(feed, &mut lines)?;
    Ok(text)
}
