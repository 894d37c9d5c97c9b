ghost use Rattle.insar_ports.specs.Calls.{Moves, Takes, call_of};
ghost use Rattle.insar_ports.specs.Feeding.{left_of, limit_of, source_name};
ghost use Rattle.std.specs.Prelude.{◌≡◌, ◌*◌, ◌+◌, ◌-◌, ◌≤◌, [], ℕ, IfErr, IfOk, IfSome, length, refl, vec_len};
ghost use Rattle.text_lines.specs.Numbers.{AreLongs};
ghost use Rattle.text_lines.specs.Parsing.{IsWide};
ghost use Rattle.text_lines.specs.Reading.{room_of};
ghost use Rattle.text_parts.specs.Parts.{list_in};
ghost use Rattle.text_parts.specs.Steps.{ReadsPart, itself, place_of};
ghost use Rattle.text_parts.specs.Text.{ended_line};
ghost use Rattle.whole_text.specs.Parts.{AreRows, IsFacesRow, IsHead, head_in, head_parts, lines_of_rows, rows_in};
ghost use Rattle.whole_text.specs.Reading.{HasBrokenWholeLine, HasWholeCause, IsWholeRead, IsWholeRefusedAt, whole_told};
ghost use Rattle.whole_text.specs.Text.{AreCellFaces, IsWhole, IsWholeText, cost_line, face_row, face_rows, whole_text};

use crate::parse::{cost_of, faces_of};
use crate::whole::{Whole, cell_rows_of};
use insar_ports::{Feed, Source};
use raster_model::{MAX_SIDE, RuleKind, Terms};
use std::alloc::Global;
use text_lines::{LineFault, Lines};
use text_parts::{
    LONGEST_LINE, LinedText, parsed, read_known, read_line, read_ramp, read_rule, read_steepness,
    read_to_end, read_values_part, read_whole_size,
};

/// How many bytes a face has at most, with the space before it.
const FACE_BYTES: usize = 21;

/// How many bytes the word of a line of faces has, with the space after it.
const WORD_BYTES: usize = 6;

/// What the lines before the grid say.
#[derive(Clone, Copy)]
pub(crate) struct Head {
    pub(crate) width: u32,
    pub(crate) height: u32,
    pub(crate) rule: RuleKind,
    pub(crate) terms: Terms,
    pub(crate) cost: u128,
}

/// Reads the line of the cost.
fn read_cost<S: Source>(feed: &mut Feed<S>, lines: &mut Lines) -> Result<u128, LineFault>
    ensures { ReadsPart itself IsWide (ended_line cost_line) (place_of S.left S.faults feed.old lines.old) (place_of S.left S.faults feed.new lines.new) result }
{
    read_line(feed, lines, LONGEST_LINE)?;
    parsed(lines, cost_of(lines.line()))
}

/// Reads the lines before the grid.
fn read_head<S: Source>(feed: &mut Feed<S>, lines: &mut Lines) -> Result<Head, LineFault>
    ensures { ReadsPart head_in IsHead head_parts (place_of S.left S.faults feed.old lines.old) (place_of S.left S.faults feed.new lines.new) result }
{
    read_known(feed, lines, b"insar-whole 1")?;
    let (width, height) = read_whole_size(feed, lines)?;
    let rule = read_rule(feed, lines)?;
    let (ramp_x, ramp_y) = read_ramp(feed, lines)?;
    let steep = read_steepness(feed, lines)?;
    let cost = read_cost(feed, lines)?;
    Ok(Head {
        width,
        height,
        rule,
        terms: Terms {
            ramp_x,
            ramp_y,
            steep,
        },
        cost,
    })
}

/// Reads the line of a row of faces.
fn read_row<S: Source>(
    alloc: Global,
    feed: &mut Feed<S>,
    lines: &mut Lines,
    across: usize,
) -> Result<Vec<i64>, LineFault>
    requires { across ≤ (MAX_SIDE - 1) }
    ensures { ReadsPart list_in (IsFacesRow across) (ended_line face_row) (place_of S.left S.faults feed.old lines.old) (place_of S.left S.faults feed.new lines.new) result }
{
    read_line(feed, lines, WORD_BYTES + FACE_BYTES * across)?;
    parsed(lines, faces_of(alloc, lines.line(), across)?)
}

/// Reads the lines of so many rows of faces.
fn read_rows<S: Source>(
    alloc: Global,
    feed: &mut Feed<S>,
    lines: &mut Lines,
    across: usize,
    rows: u32,
) -> Result<Vec<i64>, LineFault>
    requires { (across ≤ (MAX_SIDE - 1)) × (rows ≤ (MAX_SIDE - 1)) }
    ensures read { ReadsPart (rows_in across) (AreRows across rows) (lines_of_rows rows) (place_of S.left S.faults feed.old lines.old) (place_of S.left S.faults feed.new lines.new) result }
    ensures count { IfOk result (λ faces. vec_len faces ≡ rows * across) }
    ensures longs { IfOk result (λ faces. AreLongs faces.items) }
{
    let mut faces = Vec::new(alloc);
    for _ in 0..rows {
        let row = read_row(alloc, feed, lines, across)?;
        faces.extend_from_slice(&row)?;
    }
    Ok(faces)
}

/// Reads the lines of the faces of a raster of this size.
fn read_faces<S: Source>(
    alloc: Global,
    feed: &mut Feed<S>,
    lines: &mut Lines,
    width: u32,
    height: u32,
) -> Result<Vec<i64>, LineFault>
    requires { (1 ≤ width) × ((width ≤ MAX_SIDE) × ((1 ≤ height) × (height ≤ MAX_SIDE))) }
    ensures { ReadsPart list_in (AreCellFaces width height) (face_rows width height) (place_of S.left S.faults feed.old lines.old) (place_of S.left S.faults feed.new lines.new) result }
{
    let rows = cell_rows_of(width, height);
    read_rows(alloc, feed, lines, width as usize - 1, rows)
}

/// Reads the text up to the LF of its line `end`.
fn read_lines<S: Source>(
    alloc: Global,
    feed: &mut Feed<S>,
    lines: &mut Lines,
) -> Result<Whole, LineFault>
    ensures { ReadsPart whole_told IsWhole whole_text (place_of S.left S.faults feed.old lines.old) (place_of S.left S.faults feed.new lines.new) result }
{
    let head = read_head(feed, lines)?;
    let values = read_values_part(alloc, feed, lines, head.width, head.height)?;
    let faces = read_faces(alloc, feed, lines, head.width, head.height)?;
    read_known(feed, lines, b"end")?;
    Ok(Whole {
        rule: head.rule,
        terms: head.terms,
        cost: head.cost,
        width: head.width,
        height: head.height,
        values,
        faces,
    })
}

impl LinedText for Whole {
    ghost form = { IsWholeText };

    ghost text = { λ whole. whole_text (whole_told whole) };

    ghost in_range = { λ whole. IsWhole (whole_told whole) };

    ghost formed = { λ whole is. (whole_told whole, (is, refl)) };

    fn read_lines<S: Source>(
        alloc: Global,
        feed: &mut Feed<S>,
        lines: &mut Lines,
    ) -> Result<Whole, LineFault> {
        read_lines(alloc, feed, lines)
    }
}

/// Reads the text of a surface over the whole raster to the end of the input, in the one spelling in which it is written.
/// Lines are numbered from 1. After a refusal the feed is where it was met, and the caller ends.
pub fn read_whole<S: Source>(alloc: Global, feed: &mut Feed<S>) -> Result<Whole, LineFault>
    ensures same_source { source_name feed.new ≡ source_name feed.old }
    ensures same_limit { limit_of feed.new ≡ limit_of feed.old }
    // What was handed out is what the feed has no more.
    ensures moves { Moves (call_of S.left S.faults feed.old feed.new) }
    // What is read is spelled so, and nothing is left.
    ensures read { IfOk result (λ whole. Takes (call_of S.left S.faults feed.old feed.new) (λ text rest. (text ≡ whole_text (whole_told whole)) × (rest ≡ []))) }
    ensures fits { IfOk result (λ whole. IsWhole (whole_told whole)) }
    // The first broken line, or why else nothing is read.
    ensures refused { IfErr result (HasWholeCause (call_of S.left S.faults feed.old feed.new)) }
    // What is spelled so is read.
    ensures accepted { IfSome (left_of S.left feed.old) (λ bytes. IsWholeText bytes → length bytes ≤ room_of (call_of S.left S.faults feed.old feed.new) → IsWholeRead (call_of S.left S.faults feed.old feed.new) bytes result) }
    // A first broken line is told.
    ensures exact { IfSome (left_of S.left feed.old) (λ bytes. (n : ℕ) → HasBrokenWholeLine (room_of (call_of S.left S.faults feed.old feed.new)) n bytes → IsWholeRefusedAt (call_of S.left S.faults feed.old feed.new) n result) }
{
    read_to_end(alloc, feed)
}
