ghost use Rattle.grid_writer.specs.Grid.{frame_lines, grid_rows, grid_text};
ghost use Rattle.grid_writer.specs.GridParts.{AreSizes, HasSizeWithin, IsBodyText, IsCountLine, IsGridTextIn, IsRowLine, IsRowsText};
ghost use Rattle.grid_writer.specs.Grids.{AreLong, IsGrid, IsGridText, IsGridTextOf, grid_of, text_of_grid, value_at};
ghost use Rattle.grid_writer.specs.Reading.{IsGridRead, IsGridRefusedAt};
ghost use Rattle.insar_ports.specs.Calls.{Moves, Takes, call_of};
ghost use Rattle.insar_ports.specs.Feeding.{left_of, limit_of, source_name};
ghost use Rattle.insar_ports.specs.Lines.{IsInLine};
ghost use Rattle.raster_model.specs.Limits.{is_raster_size, is_tiled_size, max_side};
ghost use Rattle.std.specs.Prelude.{◌≡◌, ◌≤◌, ◌<◌, ◌*◌, [], ◌++◌, ℕ, ℤ, List, All, IfErr, IfOk, IfSome, IsTrue, OnOk, decimal, length, vec_len};
ghost use Rattle.text_lines.specs.Forms.{IsLine, IsText};
ghost use Rattle.text_lines.specs.LineWords.{TakesLines, lines_read};
ghost use Rattle.text_lines.specs.Numbers.{AreLongs, numbers_line};
ghost use Rattle.text_lines.specs.Reading.{HasBrokenLine, HasLineCause, room_of};

use crate::grid::FRAME;
use crate::values::Grid;
use insar_ports::{Feed, Source};
use raster_model::{MAX_PIXELS, MAX_TILED_PIXELS, MAX_TILED_SIDE};
use std::alloc::Global;
use text_lines::{LineEnd, LineFault, Lines, expect_text, labelled_count, push_row};

/// How many digits a count has at most.
const COUNT_DIGITS: usize = 10;

/// How many bytes a value has at most, with the space before it.
const VALUE_BYTES: usize = 21;

/// The least and the greatest width and height of a grid that is read, and the most pixels.
#[derive(Clone, Copy)]
struct Sizes {
    least_width: u32,
    most_width: u32,
    least_height: u32,
    most_height: u32,
    most_pixels: u32,
}

/// The sizes of all grids of rasters that have tiles.
const ANY_SIZE: Sizes = Sizes {
    least_width: 1,
    most_width: MAX_TILED_SIDE,
    least_height: 1,
    most_height: MAX_TILED_SIDE,
    most_pixels: MAX_TILED_PIXELS,
};

/// The size of a grid that was read, and a value for each pixel, in row order.
#[derive(Drop)]
struct SizedValues {
    width: u32,
    height: u32,
    values: Vec<i64>,
    ghost full: { vec_len values ≡ width * height },
}

/// Reads a grid in the one spelling in which it is written, up to the LF of its last row. Lines are numbered from 1. After a
/// refusal the feed is where it was met.
pub fn read_grid<S: Source>(alloc: Global, feed: &mut Feed<S>) -> Result<Grid, LineFault>
    ensures same_source { source_name feed.new ≡ source_name feed.old }
    ensures same_limit { limit_of feed.new ≡ limit_of feed.old }
    // What was handed out is what the feed has no more.
    ensures moves { Moves (call_of S.left S.faults feed.old feed.new) }
    // What is read is spelled so, and what follows is left.
    ensures read { IfOk result (λ grid. Takes (call_of S.left S.faults feed.old feed.new) (λ text rest. text ≡ text_of_grid (grid_of grid))) }
    ensures fits { IfOk result (λ grid. IsGrid (grid_of grid)) }
    // The first broken line, or why else no grid is read.
    ensures refused { IfErr result (HasLineCause IsGridText 0 (call_of S.left S.faults feed.old feed.new)) }
    // What is spelled so is read, and what follows is left.
    ensures accepted { IfSome (left_of S.left feed.old) (λ bytes. (text rest : List ℕ) → bytes ≡ text ++ rest → IsGridText text → length text ≤ room_of (call_of S.left S.faults feed.old feed.new) → IsGridRead (call_of S.left S.faults feed.old feed.new) text rest result) }
    // A first broken line is told.
    ensures exact { IfSome (left_of S.left feed.old) (λ bytes. (n : ℕ) → HasBrokenLine IsGridText (room_of (call_of S.left S.faults feed.old feed.new)) n bytes → IsGridRefusedAt (call_of S.left S.faults feed.old feed.new) n result) }
{
    let mut lines = Lines::new(alloc);
    read_any(alloc, feed, &mut lines)
}

/// Reads the lines of a grid of a raster that has tiles.
fn read_any<S: Source>(
    alloc: Global,
    feed: &mut Feed<S>,
    lines: &mut Lines,
) -> Result<Grid, LineFault>
    ensures same_source { source_name feed.new ≡ source_name feed.old }
    ensures same_limit { limit_of feed.new ≡ limit_of feed.old }
    ensures moves { Moves (call_of S.left S.faults feed.old feed.new) }
    ensures fits { IfOk result (λ grid. IsGrid (grid_of grid)) }
    ensures read { IfOk result (λ grid. TakesLines (IsText (text_of_grid (grid_of grid))) (lines_read lines.old) (lines_read lines.new) (call_of S.left S.faults feed.old feed.new)) }
    ensures refused { IfErr result (HasLineCause IsGridText (lines_read lines.old) (call_of S.left S.faults feed.old feed.new)) }
{
    let read = read_within(alloc, feed, lines, ANY_SIZE)?;
    Ok(Grid {
        width: read.width,
        height: read.height,
        values: read.values,
    })
}

/// Reads a grid of a size that is known, as a part of a longer text. The size is one of a raster that has tiles.
pub fn read_sized_grid<S: Source>(
    alloc: Global,
    feed: &mut Feed<S>,
    lines: &mut Lines,
    width: u32,
    height: u32,
) -> Result<Grid, LineFault>
    requires sized { IsTrue (is_tiled_size width height) }
    ensures same_source { source_name feed.new ≡ source_name feed.old }
    ensures same_limit { limit_of feed.new ≡ limit_of feed.old }
    ensures moves { Moves (call_of S.left S.faults feed.old feed.new) }
    ensures size { IfOk result (λ grid. (grid.width ≡ width) × (grid.height ≡ height)) }
    ensures fits { IfOk result (λ grid. IsGrid (grid_of grid)) }
    ensures read { IfOk result (λ grid. TakesLines (λ text. text ≡ text_of_grid (grid_of grid)) (lines_read lines.old) (lines_read lines.new) (call_of S.left S.faults feed.old feed.new)) }
    ensures refused { IfErr result (HasLineCause (IsGridTextOf width height) (lines_read lines.old) (call_of S.left S.faults feed.old feed.new)) }
{
    let values = read_sized_values(alloc, feed, lines, width, height)?;
    Ok(Grid {
        width,
        height,
        values,
    })
}

/// Reads the values of a grid of a size that is known, as a part of a longer text: one for each pixel, in row order. The size
/// is one of a raster.
pub fn read_sized_values<S: Source>(
    alloc: Global,
    feed: &mut Feed<S>,
    lines: &mut Lines,
    width: u32,
    height: u32,
) -> Result<Vec<i64>, LineFault>
    requires sized { IsTrue (is_raster_size width height) }
    ensures same_source { source_name feed.new ≡ source_name feed.old }
    ensures same_limit { limit_of feed.new ≡ limit_of feed.old }
    ensures moves { Moves (call_of S.left S.faults feed.old feed.new) }
    ensures full { IfOk result (λ values. vec_len values ≡ width * height) }
    ensures fits { IfOk result (λ values. AreLong width height (value_at width values.items)) }
    ensures read { IfOk result (λ values. TakesLines (λ text. text ≡ grid_text width height (value_at width values.items)) (lines_read lines.old) (lines_read lines.new) (call_of S.left S.faults feed.old feed.new)) }
    ensures refused { IfErr result (HasLineCause (IsGridTextOf width height) (lines_read lines.old) (call_of S.left S.faults feed.old feed.new)) }
{
    let sizes = Sizes {
        least_width: width,
        most_width: width,
        least_height: height,
        most_height: height,
        most_pixels: MAX_PIXELS,
    };
    Ok(read_within(alloc, feed, lines, sizes)?.values)
}

/// Reads a grid whose size is within limits.
fn read_within<S: Source>(
    alloc: Global,
    feed: &mut Feed<S>,
    lines: &mut Lines,
    sizes: Sizes,
) -> Result<SizedValues, LineFault>
    requires { AreSizes sizes }
    ensures same_source { source_name feed.new ≡ source_name feed.old }
    ensures same_limit { limit_of feed.new ≡ limit_of feed.old }
    ensures moves { Moves (call_of S.left S.faults feed.old feed.new) }
    ensures size { IfOk result (λ read. HasSizeWithin sizes read.width read.height) }
    ensures fits { IfOk result (λ read. AreLong read.width read.height (value_at read.width read.values.items)) }
    ensures read { IfOk result (λ read. TakesLines (IsText (grid_text read.width read.height (value_at read.width read.values.items))) (lines_read lines.old) (lines_read lines.new) (call_of S.left S.faults feed.old feed.new)) }
    ensures refused { IfErr result (HasLineCause (IsGridTextIn sizes) (lines_read lines.old) (call_of S.left S.faults feed.old feed.new)) }
{
    let width = read_count(feed, lines, b"ncols ", sizes.least_width, sizes.most_width)?;
    let most_height = sizes.most_height.min(sizes.most_pixels / width);
    let height = read_count(feed, lines, b"nrows ", sizes.least_height, most_height)?;
    let values = read_body(alloc, feed, lines, width, height)?;
    Ok(SizedValues {
        width,
        height,
        values,
    })
}

/// Reads the next line, which has to give a number from `least` to `most` after a label.
fn read_count<S: Source>(
    feed: &mut Feed<S>,
    lines: &mut Lines,
    label: &[u8],
    least: u32,
    most: u32,
) -> Result<u32, LineFault>
    requires short { length label.now ≤ 128 }
    requires inside { All IsInLine label.now }
    requires some { least ≤ most }
    ensures same_source { source_name feed.new ≡ source_name feed.old }
    ensures same_limit { limit_of feed.new ≡ limit_of feed.old }
    ensures moves { Moves (call_of S.left S.faults feed.old feed.new) }
    ensures within { IfOk result (λ count. (least ≤ count) × (count ≤ most)) }
    ensures read { IfOk result (λ count. TakesLines (IsLine (label.now ++ decimal count)) (lines_read lines.old) (lines_read lines.new) (call_of S.left S.faults feed.old feed.new)) }
    ensures refused { IfErr result (HasLineCause (IsCountLine label.now least most) (lines_read lines.old) (call_of S.left S.faults feed.old feed.new)) }
{
    match lines.next(feed, label.len() + COUNT_DIGITS)? {
        LineEnd::Whole => match labelled_count(lines.line(), label, least, most) {
            Some(count) => Ok(count),
            None => Err(LineFault::Line(lines.number())),
        },
        LineEnd::Long | LineEnd::Cut => Err(LineFault::Line(lines.number())),
    }
}

/// Reads what follows the size.
fn read_body<S: Source>(
    alloc: Global,
    feed: &mut Feed<S>,
    lines: &mut Lines,
    width: u32,
    height: u32,
) -> Result<Vec<i64>, LineFault>
    requires sized { IsTrue (is_raster_size width height) }
    ensures same_source { source_name feed.new ≡ source_name feed.old }
    ensures same_limit { limit_of feed.new ≡ limit_of feed.old }
    ensures moves { Moves (call_of S.left S.faults feed.old feed.new) }
    ensures full { IfOk result (λ values. vec_len values ≡ width * height) }
    ensures fits { IfOk result (λ values. AreLongs values.items) }
    ensures read { IfOk result (λ values. TakesLines (IsText (frame_lines ++ grid_rows width height (value_at width values.items))) (lines_read lines.old) (lines_read lines.new) (call_of S.left S.faults feed.old feed.new)) }
    ensures refused { IfErr result (HasLineCause (IsBodyText width height) (lines_read lines.old) (call_of S.left S.faults feed.old feed.new)) }
{
    read_frame(feed, lines)?;
    let mut values = Vec::new(alloc);
    read_rows(feed, lines, width, height, &mut values)?;
    Ok(values)
}

/// Reads the four lines of the header that are the same in every grid.
#[tactic(auto, using(crate::proofs::HeadLemmas::frame_whole), unfolding(crate::specs::Grid::frame_lines))]
fn read_frame<S: Source>(feed: &mut Feed<S>, lines: &mut Lines) -> Result<(), LineFault>
    ensures same_source { source_name feed.new ≡ source_name feed.old }
    ensures same_limit { limit_of feed.new ≡ limit_of feed.old }
    ensures moves { Moves (call_of S.left S.faults feed.old feed.new) }
    ensures read { OnOk result (TakesLines (IsText frame_lines) (lines_read lines.old) (lines_read lines.new) (call_of S.left S.faults feed.old feed.new)) }
    ensures refused { IfErr result (HasLineCause (IsText frame_lines) (lines_read lines.old) (call_of S.left S.faults feed.old feed.new)) }
{
    expect_text(feed, lines, FRAME)
}

/// Reads the rows into an empty list.
fn read_rows<S: Source>(
    feed: &mut Feed<S>,
    lines: &mut Lines,
    width: u32,
    height: u32,
    values: &mut Vec<i64>,
) -> Result<(), LineFault>
    requires sized { IsTrue (is_raster_size width height) }
    requires empty { values.old.items ≡ [] }
    ensures same_source { source_name feed.new ≡ source_name feed.old }
    ensures same_limit { limit_of feed.new ≡ limit_of feed.old }
    ensures moves { Moves (call_of S.left S.faults feed.old feed.new) }
    ensures full { OnOk result (vec_len values.new ≡ width * height) }
    ensures fits { OnOk result (AreLongs values.new.items) }
    ensures read { OnOk result (TakesLines (IsText (grid_rows width height (value_at width values.new.items))) (lines_read lines.old) (lines_read lines.new) (call_of S.left S.faults feed.old feed.new)) }
    ensures refused { IfErr result (HasLineCause (IsRowsText width height) (lines_read lines.old) (call_of S.left S.faults feed.old feed.new)) }
{
    for _ in 0..height {
        read_row(feed, lines, width as usize, values)?;
    }
    Ok(())
}

/// Reads the next line, which has to be a row of `width` values, and adds them to a list.
fn read_row<S: Source>(
    feed: &mut Feed<S>,
    lines: &mut Lines,
    width: usize,
    values: &mut Vec<i64>,
) -> Result<(), LineFault>
    requires wide { (0 < width) × (width ≤ max_side) }
    ensures same_source { source_name feed.new ≡ source_name feed.old }
    ensures same_limit { limit_of feed.new ≡ limit_of feed.old }
    ensures moves { Moves (call_of S.left S.faults feed.old feed.new) }
    ensures read { OnOk result ((row : List ℤ) × ((values.new.items ≡ values.old.items ++ row) × ((length row ≡ width) × (AreLongs row × TakesLines (IsLine (numbers_line row)) (lines_read lines.old) (lines_read lines.new) (call_of S.left S.faults feed.old feed.new))))) }
    ensures refused { IfErr result (HasLineCause (IsRowLine width) (lines_read lines.old) (call_of S.left S.faults feed.old feed.new)) }
{
    match lines.next(feed, VALUE_BYTES * width)? {
        LineEnd::Whole if push_row(lines.line(), width, values)? => Ok(()),
        _ => Err(LineFault::Line(lines.number())),
    }
}
