//! Laws of the definitions. The functions do nothing; each contract is the law.

ghost use Rattle.answer_lines.specs.WatchLines.{SeenEndWithTheLast};

/// What a reader saw of revisions that rise is some of them, which rise too; if it kept the last of them, what it saw ends with
/// that one.
pub fn seen_end_with_the_last()
    ensures { SeenEndWithTheLast }
{}
