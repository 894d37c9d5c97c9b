ghost use Rattle.insar_ports.specs.Calls.{Moves, call_of};
ghost use Rattle.insar_ports.specs.Feeding.{limit_of, source_name};
ghost use Rattle.insar_ports.specs.Lines.{IsInLine};
ghost use Rattle.std.specs.Prelude.{◌≡◌, All, IfErr, OnOk};
ghost use Rattle.text_lines.specs.Forms.{AreWholeLines, IsLine, IsText};
ghost use Rattle.text_lines.specs.LineWords.{TakesLines, lines_read};
ghost use Rattle.text_lines.specs.Reading.{HasLineCause};

use crate::fault::LineFault;
use crate::lines::{LineEnd, Lines};
use insar_ports::{Feed, Source};
use memchr::memchr;

/// Reads the next line, which has to be this text.
pub fn expect_line<S: Source>(
    feed: &mut Feed<S>,
    lines: &mut Lines,
    text: &[u8],
) -> Result<(), LineFault>
    requires { All IsInLine text.now }
    ensures same_source { source_name feed.new ≡ source_name feed.old }
    ensures same_limit { limit_of feed.new ≡ limit_of feed.old }
    ensures moves { Moves (call_of S.left S.faults feed.old feed.new) }
    ensures read { OnOk result (TakesLines (IsLine text.now) (lines_read lines.old) (lines_read lines.new) (call_of S.left S.faults feed.old feed.new)) }
    ensures refused { IfErr result (HasLineCause (IsLine text.now) (lines_read lines.old) (call_of S.left S.faults feed.old feed.new)) }
{
    match lines.next(feed, text.len())? {
        LineEnd::Whole if lines.line() == text => Ok(()),
        _ => Err(LineFault::Line(lines.number())),
    }
}

/// Reads the lines of a text that is known.
pub fn expect_text<S: Source>(
    feed: &mut Feed<S>,
    lines: &mut Lines,
    text: &[u8],
) -> Result<(), LineFault>
    requires { AreWholeLines text.now }
    ensures same_source { source_name feed.new ≡ source_name feed.old }
    ensures same_limit { limit_of feed.new ≡ limit_of feed.old }
    ensures moves { Moves (call_of S.left S.faults feed.old feed.new) }
    ensures read { OnOk result (TakesLines (IsText text.now) (lines_read lines.old) (lines_read lines.new) (call_of S.left S.faults feed.old feed.new)) }
    ensures refused { IfErr result (HasLineCause (IsText text.now) (lines_read lines.old) (call_of S.left S.faults feed.old feed.new)) }
{
    let mut rest = text;
    while let Some(count) = memchr(b'\n', rest) {
        expect_line(feed, lines, &rest[..count])?;
        rest = &rest[count + 1..];
    }
    Ok(())
}
