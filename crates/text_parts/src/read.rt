ghost use Rattle.grid_writer.specs.Grid.{grid_text};
ghost use Rattle.grid_writer.specs.Grids.{AreLong};
ghost use Rattle.insar_ports.specs.Calls.{Moves, Takes, call_of};
ghost use Rattle.insar_ports.specs.Feeding.{handed_of, left_of, limit_of, source_name};
ghost use Rattle.insar_ports.specs.Lines.{IsInLine};
ghost use Rattle.raster_model.specs.Limits.{IsSteepness, is_raster_size, is_tiled_size};
ghost use Rattle.std.specs.Prelude.{◌≡◌, ◌*◌, [], All, IfErr, IfOk, IsTrue, OnOk, vec_len};
ghost use Rattle.text_lines.specs.LineWords.{kept_line, lines_read};
ghost use Rattle.text_lines.specs.Numbers.{AreLongs, numbers_text};
ghost use Rattle.text_lines.specs.Parsing.{IsAnyRule, behind};
ghost use Rattle.text_parts.specs.Parts.{HasMoreCause, IsListParsedAs, IsRamp, IsRasterSize, IsWholeSize, rows_of, values_in};
ghost use Rattle.text_parts.specs.Steps.{ReadsLine, ReadsPart, itself, parsed_at, place_of};
ghost use Rattle.text_parts.specs.Text.{ended_line, known_line, ramp_line, rule_line, size_line, steep_line};

use crate::parse::{known_in, ramp_of, rule_of, size_of, steepness_of, whole_size_of};
use grid_writer::{Grid, read_sized_grid, read_sized_values};
use insar_ports::{Feed, Source};
use raster_model::RuleKind;
use std::alloc::{AllocError, Global};
use text_lines::{LineEnd, LineFault, Lines, push_numbers};

/// No line but those of lists of numbers has more bytes.
pub const LONGEST_LINE: usize = 128;

/// Reads the next line to its end. One that has more than `most` bytes, or that the input cuts, is refused.
pub fn read_line<S: Source>(
    feed: &mut Feed<S>,
    lines: &mut Lines,
    most: usize,
) -> Result<(), LineFault>
    ensures { ReadsLine most (kept_line lines.new) (place_of S.left S.faults feed.old lines.old) (place_of S.left S.faults feed.new lines.new) result }
{
    match lines.next(feed, most)? {
        LineEnd::Whole => Ok(()),
        LineEnd::Long | LineEnd::Cut => Err(LineFault::Line(lines.number())),
    }
}

/// What was parsed of the last line, or its refusal.
pub fn parsed<T: Drop>(lines: &Lines, found: Option<T>) -> Result<T, LineFault>
    ensures { result ≡ parsed_at (lines_read lines.now) found }
{
    match found {
        Some(value) => Ok(value),
        None => Err(LineFault::Line(lines.number())),
    }
}

/// Reads a line that is known.
pub fn read_known<S: Source>(
    feed: &mut Feed<S>,
    lines: &mut Lines,
    text: &[u8],
) -> Result<(), LineFault>
    requires { All IsInLine text.now }
    ensures { ReadsPart itself IsAnyRule (ended_line (known_line text.now)) (place_of S.left S.faults feed.old lines.old) (place_of S.left S.faults feed.new lines.new) result }
{
    read_line(feed, lines, text.len())?;
    parsed(lines, known_in(lines.line(), text))
}

/// Reads the line `size W H`, of the size of a raster that has tiles.
pub fn read_size<S: Source>(feed: &mut Feed<S>, lines: &mut Lines) -> Result<(u32, u32), LineFault>
    ensures { ReadsPart itself IsRasterSize (ended_line size_line) (place_of S.left S.faults feed.old lines.old) (place_of S.left S.faults feed.new lines.new) result }
{
    read_line(feed, lines, LONGEST_LINE)?;
    parsed(lines, size_of(lines.line()))
}

/// Reads the line `size W H`, of the size of a raster, with or without tiles.
pub fn read_whole_size<S: Source>(
    feed: &mut Feed<S>,
    lines: &mut Lines,
) -> Result<(u32, u32), LineFault>
    ensures { ReadsPart itself IsWholeSize (ended_line size_line) (place_of S.left S.faults feed.old lines.old) (place_of S.left S.faults feed.new lines.new) result }
{
    read_line(feed, lines, LONGEST_LINE)?;
    parsed(lines, whole_size_of(lines.line()))
}

/// Reads the line `rule RULE`.
pub fn read_rule<S: Source>(feed: &mut Feed<S>, lines: &mut Lines) -> Result<RuleKind, LineFault>
    ensures { ReadsPart itself IsAnyRule (ended_line rule_line) (place_of S.left S.faults feed.old lines.old) (place_of S.left S.faults feed.new lines.new) result }
{
    read_line(feed, lines, LONGEST_LINE)?;
    parsed(lines, rule_of(lines.line()))
}

/// Reads the line `ramp GX GY`: its slopes along right and down edges.
pub fn read_ramp<S: Source>(feed: &mut Feed<S>, lines: &mut Lines) -> Result<(i32, i32), LineFault>
    ensures { ReadsPart itself IsRamp (ended_line ramp_line) (place_of S.left S.faults feed.old lines.old) (place_of S.left S.faults feed.new lines.new) result }
{
    read_line(feed, lines, LONGEST_LINE)?;
    parsed(lines, ramp_of(lines.line()))
}

/// Reads the line `steep Q`.
pub fn read_steepness<S: Source>(feed: &mut Feed<S>, lines: &mut Lines) -> Result<u32, LineFault>
    ensures { ReadsPart itself IsSteepness (ended_line steep_line) (place_of S.left S.faults feed.old lines.old) (place_of S.left S.faults feed.new lines.new) result }
{
    read_line(feed, lines, LONGEST_LINE)?;
    parsed(lines, steepness_of(lines.line()))
}

/// The numbers of a line that begins so, each after a space.
pub fn numbers_after(
    alloc: Global,
    line: &[u8],
    front: &[u8],
) -> Result<Option<Vec<i64>>, AllocError>
    ensures { IfOk result (IsListParsedAs AreLongs (behind front.now numbers_text) line.now) }
{
    let Some(fields) = line.strip_prefix(front) else {
        return Ok(None);
    };
    let mut numbers = Vec::new(alloc);
    if push_numbers(fields, &mut numbers)? {
        Ok(Some(numbers))
    } else {
        Ok(None)
    }
}

/// Reads the values of a grid of a known size, one for each pixel of a raster, in row order.
pub fn read_values_part<S: Source>(
    alloc: Global,
    feed: &mut Feed<S>,
    lines: &mut Lines,
    width: u32,
    height: u32,
) -> Result<Vec<i64>, LineFault>
    requires sized { IsTrue (is_raster_size width height) }
    ensures read { ReadsPart (rows_of width) (AreLong width height) (grid_text width height) (place_of S.left S.faults feed.old lines.old) (place_of S.left S.faults feed.new lines.new) result }
    ensures full { IfOk result (λ values. vec_len values ≡ width * height) }
{
    read_sized_values(alloc, feed, lines, width, height)
}

/// Reads a grid of a known size, of a raster that has tiles.
pub fn read_grid_part<S: Source>(
    alloc: Global,
    feed: &mut Feed<S>,
    lines: &mut Lines,
    width: u32,
    height: u32,
) -> Result<Grid, LineFault>
    requires sized { IsTrue (is_tiled_size width height) }
    ensures read { ReadsPart values_in (AreLong width height) (grid_text width height) (place_of S.left S.faults feed.old lines.old) (place_of S.left S.faults feed.new lines.new) result }
    ensures size { IfOk result (λ grid. (grid.width ≡ width) × (grid.height ≡ height)) }
{
    read_sized_grid(alloc, feed, lines, width, height)
}

/// Reads the end of the input. A line that is there instead is refused.
pub fn expect_end<S: Source>(feed: &mut Feed<S>, lines: &mut Lines) -> Result<(), LineFault>
    ensures same_source { source_name feed.new ≡ source_name feed.old }
    ensures same_limit { limit_of feed.new ≡ limit_of feed.old }
    ensures moves { Moves (call_of S.left S.faults feed.old feed.new) }
    ensures ended { OnOk result (Takes (call_of S.left S.faults feed.old feed.new) (λ text rest. (text ≡ []) × (rest ≡ []))) }
    ensures refused { IfErr result (HasMoreCause (lines_read lines.old) (call_of S.left S.faults feed.old feed.new)) }
{
    if feed.peek()?.is_none() {
        return Ok(());
    }
    lines.next(feed, 0)?;
    Err(LineFault::Line(lines.number()))
}
