ghost use Rattle.sums_and_lists.specs.Sums.{one_if};
ghost use Rattle.raster_model.specs.Tiles.{tiles_of};
ghost use Rattle.report_text.specs.Appending.{AreOver, AreSmallItems, IsSmallItem, next_surface};
ghost use Rattle.report_text.specs.Contents.{MayBeInRange};
ghost use Rattle.report_text.specs.Putting.{PutsReport};
ghost use Rattle.report_text.specs.Reports.{is_published, item_of, items_of, report_of};
ghost use Rattle.text_parts.specs.Terms.{terms_of};
ghost use Rattle.report_text.specs.Terms.{version_on};
ghost use Rattle.report_text.specs.Text.{after_text, head_text, item_text, report_text, terms_text, tile_line, version_line};
ghost use Rattle.text_parts.specs.Text.{ended_line};
ghost use Rattle.std.specs.Prelude.{◌≡◌, [], IfSome, flat_map, map};
ghost use Rattle.surface_snapshots.specs.Views.{parts_of};
ghost use Rattle.text_lines.specs.Adding.{Adds};
ghost use Rattle.text_lines.specs.Views.{view_of};
ghost use Rattle.tile_board.specs.Boards.{IsBoard};

use crate::entry::add_entry;
use crate::scribe::{OneThread, Scribe, SideBySide};
use crate::surface::add_surface;
use insar_ports::{Sink, WriteFault};
use raster_model::{Session, Terms};
use std::thread::Threads;
use surface_snapshots::Snapshot;
use text_lines::{TextWriter, add_field};
use text_pages::Pages;
use text_parts::{add_ramp, add_rule, add_size, add_steepness};
use tile_board::{Board, Entry};

/// Writes the report of a board: the head, then the whole history in order, after each publication the published
/// surface with its costs, faces and flows, and the line `end`. It takes no memory. After a fault the sink has a
/// part of the text. The text can be read: each of its numbers is in its range.
pub fn write_report<K: Sink>(board: &Board, sink: &mut K) -> Result<(), WriteFault>
    ensures { PutsReport (K.held sink.old) (K.faults sink.old) (K.held sink.new) (K.faults sink.new) board.now result }
{
    write_by(&mut OneThread, board, sink)
}

/// Writes the report of a board as [`write_report`] does. Several threads make the lines of its surfaces, if there are pages
/// for them. It takes no memory but these pages.
pub fn write_report_side_by_side<R: Threads + Sync, K: Sink>(
    rt: &R,
    pages: Pages,
    board: &Board,
    sink: &mut K,
) -> Result<(), WriteFault>
    ensures { PutsReport (K.held sink.old) (K.faults sink.old) (K.held sink.new) (K.faults sink.new) board.now result }
{
    write_by(&mut SideBySide { rt, pages }, board, sink)
}

/// Writes the report of a board, of which a scribe makes the lines of surfaces.
fn write_by<K: Sink, C: Scribe>(
    scribe: &mut C,
    board: &Board,
    sink: &mut K,
) -> Result<(), WriteFault>
    requires { C.ready scribe.old }
    ensures { PutsReport (K.held sink.old) (K.faults sink.old) (K.held sink.new) (K.faults sink.new) board.now result }
{
    let mut text = TextWriter::new(sink);
    add_board(&mut text, scribe, board);
    text.finish()
}

fn add_board<K: Sink, C: Scribe>(text: &mut TextWriter<K>, scribe: &mut C, board: &Board)
    requires { C.ready scribe.old }
    ensures text { Adds (view_of K.held K.faults text.old) (view_of K.held K.faults text.new) (report_text (report_of board.now.session board.now.entries board.now.surfaces)) }
    ensures board { IsBoard board.now }
    ensures small { AreSmallItems board.now.session.scene.phase.width board.now.session.scene.phase.height (tiles_of board.now.session.scene.tiling) (items_of board.now.entries board.now.surfaces) }
{
    add_report(
        text,
        scribe,
        board.session(),
        board.entries(),
        board.snapshots(),
    );
}

/// Adds the report of a session with a history and the snapshots of its publications.
fn add_report<K: Sink, C: Scribe>(
    text: &mut TextWriter<K>,
    scribe: &mut C,
    session: &Session,
    entries: &[Entry],
    snapshots: &[Snapshot],
)
    requires ready { C.ready scribe.old }
    requires over { AreOver session.now snapshots.now }
    ensures text { Adds (view_of K.held K.faults text.old) (view_of K.held K.faults text.new) (report_text (report_of session.now entries.now (map parts_of snapshots.now))) }
    ensures small { AreSmallItems session.now.scene.phase.width session.now.scene.phase.height (tiles_of session.now.scene.tiling) (items_of entries.now (map parts_of snapshots.now)) }
{
    add_head(text, session);
    let tiles = session.scene.tiling.tile_count();
    add_items(text, scribe, tiles, session, entries, snapshots);
    text.bytes(b"end\n");
}

fn add_head<K: Sink>(text: &mut TextWriter<K>, session: &Session)
    ensures { Adds (view_of K.held K.faults text.old) (view_of K.held K.faults text.new) (head_text (report_of session.now [] [])) }
{
    let terms = session.scene.terms;
    let version = version_for(terms);
    add_version(text, version);
    add_size(text, session.scene.phase.width, session.scene.phase.height);
    add_side(text, session.scene.tiling.side);
    add_rule(text, session.scene.rule);
    add_terms(text, version, terms);
}

/// The version in which a report on these terms is written: 1 if they are the plain ones.
fn version_for(terms: Terms) -> u32
    ensures { result ≡ version_on (terms_of terms) }
{
    if terms == Terms::plain() { 1 } else { 2 }
}

fn add_version<K: Sink>(text: &mut TextWriter<K>, version: u32)
    ensures { Adds (view_of K.held K.faults text.old) (view_of K.held K.faults text.new) (ended_line version_line version) }
{
    text.bytes(b"insar-report");
    add_field(text, version);
    text.end_line();
}

fn add_side<K: Sink>(text: &mut TextWriter<K>, side: u32)
    ensures { Adds (view_of K.held K.faults text.old) (view_of K.held K.faults text.new) (ended_line tile_line side) }
{
    text.bytes(b"tile");
    add_field(text, side);
    text.end_line();
}

/// Adds the lines of the terms, which version 1 does not have.
fn add_terms<K: Sink>(text: &mut TextWriter<K>, version: u32, terms: Terms)
    ensures { Adds (view_of K.held K.faults text.old) (view_of K.held K.faults text.new) (terms_text version (terms_of terms)) }
{
    if version == 1 {
        return;
    }
    add_ramp(text, terms.ramp_x, terms.ramp_y);
    add_steepness(text, terms.steep);
}

/// Whether a surface comes after an entry.
pub(crate) fn is_publication(entry: Entry) -> bool
    ensures { result ≡ is_published entry }
{
    match entry {
        Entry::Published { .. } => true,
        Entry::Revised { .. } | Entry::Kept { .. } | Entry::Settled { .. } | Entry::Shown { .. } =>
            false,
    }
}

/// How many surfaces come after an entry.
fn surfaces_after(entry: Entry) -> usize
    ensures { result ≡ one_if (is_published entry) }
{
    if is_publication(entry) {
        return 1;
    }
    0
}

/// Adds the items of a session of `tiles` tiles: each entry, and after each publication the next of the snapshots.
/// After a fault they are only read.
fn add_items<K: Sink, C: Scribe>(
    text: &mut TextWriter<K>,
    scribe: &mut C,
    tiles: u32,
    session: &Session,
    entries: &[Entry],
    snapshots: &[Snapshot],
)
    requires ready { C.ready scribe.old }
    requires tiles { tiles ≡ tiles_of session.now.scene.tiling }
    requires sessions { AreOver session.now snapshots.now }
    ensures ready { C.ready scribe.new }
    ensures text { Adds (view_of K.held K.faults text.old) (view_of K.held K.faults text.new) (flat_map (item_text session.now.scene.phase.width session.now.scene.phase.height tiles) (items_of entries.now (map parts_of snapshots.now))) }
    ensures small { AreSmallItems session.now.scene.phase.width session.now.scene.phase.height tiles (items_of entries.now (map parts_of snapshots.now)) }
{
    let mut place = 0;
    for entry in entries {
        add_item(text, scribe, tiles, session, *entry, snapshots.get(place));
        place += surfaces_after(*entry);
    }
}

/// Adds an entry's line, and after a publication the lines of the next snapshot, if any.
fn add_item<K: Sink, C: Scribe>(
    text: &mut TextWriter<K>,
    scribe: &mut C,
    tiles: u32,
    session: &Session,
    entry: Entry,
    next: Option<&Snapshot>,
)
    requires ready { C.ready scribe.old }
    requires tiles { tiles ≡ tiles_of session.now.scene.tiling }
    requires over { IfSome next (λ snapshot. (parts_of snapshot.now).session ≡ session.now) }
    ensures ready { C.ready scribe.new }
    ensures text { Adds (view_of K.held K.faults text.old) (view_of K.held K.faults text.new) (item_text session.now.scene.phase.width session.now.scene.phase.height tiles (item_of entry (next_surface next.entry))) }
    ensures small { IsSmallItem session.now.scene.phase.width session.now.scene.phase.height tiles (item_of entry (next_surface next.entry)) }
{
    add_entry(text, entry);
    text.end_line();
    add_after(text, scribe, tiles, session, entry, next);
}

/// Adds the lines of the next snapshot after a publication, and nothing after another entry.
fn add_after<K: Sink, C: Scribe>(
    text: &mut TextWriter<K>,
    scribe: &mut C,
    tiles: u32,
    session: &Session,
    entry: Entry,
    next: Option<&Snapshot>,
)
    requires ready { C.ready scribe.old }
    requires tiles { tiles ≡ tiles_of session.now.scene.tiling }
    requires over { IfSome next (λ snapshot. (parts_of snapshot.now).session ≡ session.now) }
    ensures ready { C.ready scribe.new }
    ensures text { Adds (view_of K.held K.faults text.old) (view_of K.held K.faults text.new) (after_text session.now.scene.phase.width session.now.scene.phase.height tiles (item_of entry (next_surface next.entry)).surface) }
    ensures small { MayBeInRange session.now.scene.phase.width session.now.scene.phase.height tiles (item_of entry (next_surface next.entry)).surface }
{
    let Some(snapshot) = next else {
        return;
    };
    if is_publication(entry) {
        add_surface(text, scribe, tiles, snapshot);
    }
}
