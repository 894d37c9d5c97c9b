ghost use Rattle.std.specs.Prelude.{IfOk};
ghost use Rattle.text_lines.specs.Parsing.{IsParsedAs, IsWide};
ghost use Rattle.text_parts.specs.Parts.{IsListParsedAs};
ghost use Rattle.whole_text.specs.Parts.{IsFacesRow};
ghost use Rattle.whole_text.specs.Text.{cost_line, face_row};

use std::alloc::{AllocError, Global};
use text_lines::last_wide;
use text_parts::numbers_after;

/// The cost of a line `cost C`.
pub(crate) fn cost_of(line: &[u8]) -> Option<u128>
    ensures { IsParsedAs IsWide cost_line line.now result }
{
    last_wide(line.strip_prefix(b"cost")?)
}

/// The faces of a line `faces`, if there are so many.
pub(crate) fn faces_of(
    alloc: Global,
    line: &[u8],
    across: usize,
) -> Result<Option<Vec<i64>>, AllocError>
    ensures { IfOk result (IsListParsedAs (IsFacesRow across) face_row line.now) }
{
    let Some(faces) = numbers_after(alloc, line, b"faces")? else {
        return Ok(None);
    };
    if faces.len() == across {
        Ok(Some(faces))
    } else {
        Ok(None)
    }
}
