ghost use Rattle.insar_ports.specs.Calls.{Moves, Takes, call_of};
ghost use Rattle.insar_ports.specs.Feeding.{handed_of, left_of, limit_of, source_name};
ghost use Rattle.raster_model.specs.Limits.{IsTileSide};
ghost use Rattle.report_text.specs.Contents.{IsEntryOfWords, IsItemInRange, IsReport, IsReportText, IsSurfaceInRange, report_told, told_after, told_item, told_surface};
ghost use Rattle.report_text.specs.Fitting.{ItemsFit, MayFit, SurfaceFits};
ghost use Rattle.report_text.specs.Parsing.{AreCosts};
ghost use Rattle.text_parts.specs.Parts.{IsListParsedAs, list_in};
ghost use Rattle.report_text.specs.Parts.{AreFacesBelow, AreFacesOf, AreItems, HasAfterCause, IsReportFront, MayStand, front_in, front_text, items_in, items_text, lists_in};
ghost use Rattle.report_text.specs.Reading.{HasBrokenReportLine, HasReportCause, IsReportRead, IsReportRefusedAt};
ghost use Rattle.text_parts.specs.Steps.{Advances, ReadsPart, Took, between, itself, place_of};
ghost use Rattle.report_text.specs.Terms.{AreTermsIn, IsVersion};
ghost use Rattle.text_parts.specs.Terms.{terms_of};
ghost use Rattle.report_text.specs.Text.{after_text, all_faces_text, costs_line, faces_line, flows_line, history_line, report_text, surface_block_text, terms_text, tile_line, version_line};
ghost use Rattle.text_parts.specs.Text.{ended_line};
ghost use Rattle.std.specs.Prelude.{◌≡◌, ◌≤◌, ◌<◌, [], ℕ, IfErr, IfOk, IfSome, OnOk, length, refl, vec_len};
ghost use Rattle.text_lines.specs.LineWords.{lines_read};
ghost use Rattle.text_lines.specs.Numbers.{AreLongs};
ghost use Rattle.text_lines.specs.Reading.{room_of};

use crate::contents::Report;
use crate::head::Head;
use crate::items::{Item, ReportSurface};
use crate::parse::{costs_of, history_of, side_of, version_of};
use crate::report::is_publication;
use insar_ports::{Feed, Source};
use itoa::Buffer;
use raster_model::{Terms, Tiling};
use std::alloc::{AllocError, Global};
use text_lines::{LineFault, Lines};
use text_parts::{
    LONGEST_LINE, LinedText, numbers_after, parsed, read_grid_part, read_line, read_ramp,
    read_rule, read_size, read_steepness, read_to_end,
};
use tile_board::Entry;

/// Reads the line of the version.
fn read_version<S: Source>(feed: &mut Feed<S>, lines: &mut Lines) -> Result<u32, LineFault>
    ensures { ReadsPart itself IsVersion (ended_line version_line) (place_of S.left S.faults feed.old lines.old) (place_of S.left S.faults feed.new lines.new) result }
{
    read_line(feed, lines, LONGEST_LINE)?;
    parsed(lines, version_of(lines.line()))
}

/// Reads the line of the side of tiles.
fn read_side<S: Source>(feed: &mut Feed<S>, lines: &mut Lines) -> Result<u32, LineFault>
    ensures { ReadsPart itself IsTileSide (ended_line tile_line) (place_of S.left S.faults feed.old lines.old) (place_of S.left S.faults feed.new lines.new) result }
{
    read_line(feed, lines, LONGEST_LINE)?;
    parsed(lines, side_of(lines.line()))
}

/// Reads the first four lines.
fn read_head<S: Source>(feed: &mut Feed<S>, lines: &mut Lines) -> Result<Head, LineFault>
    ensures { ReadsPart front_in IsReportFront front_text (place_of S.left S.faults feed.old lines.old) (place_of S.left S.faults feed.new lines.new) result }
{
    let version = read_version(feed, lines)?;
    let (width, height) = read_size(feed, lines)?;
    let side = read_side(feed, lines)?;
    let rule = read_rule(feed, lines)?;
    Ok(Head {
        version,
        width,
        height,
        side,
        rule,
        tiles: Tiling::new(width, height, side).tile_count(),
    })
}

/// Reads the lines of the terms; version 1 has none, and the plain terms.
fn read_terms<S: Source>(
    feed: &mut Feed<S>,
    lines: &mut Lines,
    version: u32,
) -> Result<Terms, LineFault>
    ensures { ReadsPart terms_of (AreTermsIn version) (terms_text version) (place_of S.left S.faults feed.old lines.old) (place_of S.left S.faults feed.new lines.new) result }
{
    if version == 1 {
        return Ok(Terms::plain());
    }
    let (ramp_x, ramp_y) = read_ramp(feed, lines)?;
    let steep = read_steepness(feed, lines)?;
    Ok(Terms {
        ramp_x,
        ramp_y,
        steep,
    })
}

/// Reads the line of the costs of a surface: of all tiles, and at the seams.
fn read_costs<S: Source>(feed: &mut Feed<S>, lines: &mut Lines) -> Result<(u128, u128), LineFault>
    ensures { ReadsPart itself AreCosts (ended_line costs_line) (place_of S.left S.faults feed.old lines.old) (place_of S.left S.faults feed.new lines.new) result }
{
    read_line(feed, lines, LONGEST_LINE)?;
    parsed(lines, costs_of(lines.line()))
}

/// Reads the line of an entry; None is the line `end`.
fn read_entry<S: Source>(feed: &mut Feed<S>, lines: &mut Lines) -> Result<Option<Entry>, LineFault>
    ensures read { ReadsPart itself MayStand (ended_line history_line) (place_of S.left S.faults feed.old lines.old) (place_of S.left S.faults feed.new lines.new) result }
    ensures further { OnOk result ((handed_of feed.old < handed_of feed.new) × (handed_of feed.new ≤ limit_of feed.old)) }
{
    read_line(feed, lines, LONGEST_LINE)?;
    parsed(lines, history_of(lines.line()))
}

/// The faces of the line of a tile's faces.
fn faces_of(alloc: Global, line: &[u8], tile: u32) -> Result<Option<Vec<i64>>, AllocError>
    ensures { IfOk result (IsListParsedAs (AreFacesOf tile) (faces_line tile) line.now) }
{
    let Some(fields) = line.strip_prefix(b"faces ") else {
        return Ok(None);
    };
    let mut digits = Buffer::new();
    numbers_after(alloc, fields, digits.format(tile).as_bytes())
}

/// Reads the line of the faces of a tile.
fn read_tile_faces<S: Source>(
    alloc: Global,
    feed: &mut Feed<S>,
    lines: &mut Lines,
    tile: u32,
) -> Result<Vec<i64>, LineFault>
    ensures { ReadsPart list_in (AreFacesOf tile) (ended_line (faces_line tile)) (place_of S.left S.faults feed.old lines.old) (place_of S.left S.faults feed.new lines.new) result }
{
    read_line(feed, lines, usize::MAX)?;
    parsed(lines, faces_of(alloc, lines.line(), tile)?)
}

/// Reads the faces of the given number of tiles.
fn read_faces<S: Source>(
    alloc: Global,
    feed: &mut Feed<S>,
    lines: &mut Lines,
    tiles: u32,
) -> Result<Vec<Vec<i64>>, LineFault>
    ensures read { ReadsPart lists_in (AreFacesBelow tiles) (all_faces_text tiles) (place_of S.left S.faults feed.old lines.old) (place_of S.left S.faults feed.new lines.new) result }
    ensures count { IfOk result (λ faces. vec_len faces ≡ tiles) }
{
    let mut faces = Vec::new(alloc);
    for tile in 0..tiles {
        faces.push(read_tile_faces(alloc, feed, lines, tile)?)?;
    }
    Ok(faces)
}

/// Reads the line of the flows.
fn read_flows<S: Source>(
    alloc: Global,
    feed: &mut Feed<S>,
    lines: &mut Lines,
) -> Result<Vec<i64>, LineFault>
    ensures { ReadsPart list_in AreLongs (ended_line flows_line) (place_of S.left S.faults feed.old lines.old) (place_of S.left S.faults feed.new lines.new) result }
{
    read_line(feed, lines, usize::MAX)?;
    parsed(lines, numbers_after(alloc, lines.line(), b"flows")?)
}

/// Reads the lines of a surface.
fn read_surface<S: Source>(
    alloc: Global,
    feed: &mut Feed<S>,
    lines: &mut Lines,
    head: Head,
) -> Result<ReportSurface, LineFault>
    ensures read { ReadsPart told_surface (IsSurfaceInRange head.width head.height head.tiles) (surface_block_text head.width head.height head.tiles) (place_of S.left S.faults feed.old lines.old) (place_of S.left S.faults feed.new lines.new) result }
    ensures fits { IfOk result (SurfaceFits head.width head.height head.tiles) }
{
    let (tile_cost, seam_cost) = read_costs(feed, lines)?;
    let grid = read_grid_part(alloc, feed, lines, head.width, head.height)?;
    let faces = read_faces(alloc, feed, lines, head.tiles)?;
    let flows = read_flows(alloc, feed, lines)?;
    Ok(ReportSurface {
        tile_cost,
        seam_cost,
        grid,
        faces,
        flows,
    })
}

/// Reads the lines of a surface if the entry is a publication.
fn read_item<S: Source>(
    alloc: Global,
    feed: &mut Feed<S>,
    lines: &mut Lines,
    head: Head,
    entry: Entry,
) -> Result<Item, LineFault>
    requires words { IsEntryOfWords entry }
    ensures advances { Advances (place_of S.left S.faults feed.old lines.old) (place_of S.left S.faults feed.new lines.new) }
    ensures entry { IfOk result (λ item. item.entry ≡ entry) }
    ensures fits { IfOk result (λ item. MayFit head.width head.height head.tiles item.surface) }
    ensures ranges { IfOk result (λ item. IsItemInRange head.width head.height head.tiles (told_item item)) }
    ensures read { IfOk result (λ item. Took (after_text head.width head.height head.tiles (told_after item.surface)) (place_of S.left S.faults feed.old lines.old) (place_of S.left S.faults feed.new lines.new)) }
    ensures refused { IfErr result (HasAfterCause head.width head.height head.tiles entry (lines_read lines.old) (between (place_of S.left S.faults feed.old lines.old) (place_of S.left S.faults feed.new lines.new))) }
{
    if !is_publication(entry) {
        return Ok(Item {
            entry,
            surface: None,
        });
    }
    let surface = read_surface(alloc, feed, lines, head)?;
    Ok(Item {
        entry,
        surface: Some(Box::new(alloc, surface)?),
    })
}

/// Reads the items of a report, up to the line `end`.
fn read_items<S: Source>(
    alloc: Global,
    feed: &mut Feed<S>,
    lines: &mut Lines,
    head: Head,
) -> Result<Vec<Item>, LineFault>
    ensures read { ReadsPart items_in (AreItems head.width head.height head.tiles) (items_text head.width head.height head.tiles) (place_of S.left S.faults feed.old lines.old) (place_of S.left S.faults feed.new lines.new) result }
    ensures fits { IfOk result (λ items. ItemsFit head.width head.height head.side items.items) }
{
    let mut items = Vec::new(alloc);
    loop {
        let Some(entry) = read_entry(feed, lines)? else {
            return Ok(items);
        };
        items.push(read_item(alloc, feed, lines, head, entry)?)?;
    }
}

/// Reads a report up to the LF of its line `end`.
fn read_lines<S: Source>(
    alloc: Global,
    feed: &mut Feed<S>,
    lines: &mut Lines,
) -> Result<Report, LineFault>
    ensures { ReadsPart report_told IsReport report_text (place_of S.left S.faults feed.old lines.old) (place_of S.left S.faults feed.new lines.new) result }
{
    let head = read_head(feed, lines)?;
    let terms = read_terms(feed, lines, head.version)?;
    let items = read_items(alloc, feed, lines, head)?;
    Ok(Report {
        version: head.version,
        width: head.width,
        height: head.height,
        side: head.side,
        rule: head.rule,
        terms,
        items,
    })
}

impl LinedText for Report {
    ghost form = { IsReportText };

    ghost text = { λ report. report_text (report_told report) };

    ghost in_range = { λ report. IsReport (report_told report) };

    ghost formed = { λ report is. (report_told report, (is, refl)) };

    fn read_lines<S: Source>(
        alloc: Global,
        feed: &mut Feed<S>,
        lines: &mut Lines,
    ) -> Result<Report, LineFault> {
        read_lines(alloc, feed, lines)
    }
}

/// Reads a report to the end of the input, in the one spelling in which it is written. Lines are numbered from 1. After a
/// refusal the feed is where it was met, and the caller ends. How many faces and flows a line has is not checked.
pub fn read_report<S: Source>(alloc: Global, feed: &mut Feed<S>) -> Result<Report, LineFault>
    ensures same_source { source_name feed.new ≡ source_name feed.old }
    ensures same_limit { limit_of feed.new ≡ limit_of feed.old }
    // What was handed out is what the feed has no more.
    ensures moves { Moves (call_of S.left S.faults feed.old feed.new) }
    // What is read is spelled so, and nothing is left.
    ensures read { IfOk result (λ report. Takes (call_of S.left S.faults feed.old feed.new) (λ text rest. (text ≡ report_text (report_told report)) × (rest ≡ []))) }
    ensures fits { IfOk result (λ report. IsReport (report_told report)) }
    // The first broken line, or why else no report is read.
    ensures refused { IfErr result (HasReportCause (call_of S.left S.faults feed.old feed.new)) }
    // What is spelled so is read.
    ensures accepted { IfSome (left_of S.left feed.old) (λ bytes. IsReportText bytes → length bytes ≤ room_of (call_of S.left S.faults feed.old feed.new) → IsReportRead (call_of S.left S.faults feed.old feed.new) bytes result) }
    // A first broken line is told.
    ensures exact { IfSome (left_of S.left feed.old) (λ bytes. (n : ℕ) → HasBrokenReportLine (room_of (call_of S.left S.faults feed.old feed.new)) n bytes → IsReportRefusedAt (call_of S.left S.faults feed.old feed.new) n result) }
{
    read_to_end(alloc, feed)
}
