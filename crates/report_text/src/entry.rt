ghost use Rattle.report_text.specs.Contents.{IsEntryOfWords};
ghost use Rattle.report_text.specs.Text.{entry_text, revision_text};
ghost use Rattle.text_lines.specs.Text.{rect_text, field_text};
ghost use Rattle.std.specs.Prelude.{◌++◌, codes};
ghost use Rattle.text_lines.specs.Adding.{Adds};
ghost use Rattle.text_lines.specs.Views.{view_of};

use insar_ports::Sink;
use raster_model::{Edit, Rect};
use text_lines::{TextWriter, add_field, add_rect};
use tile_board::Entry;

/// Adds an entry's line without its end.
pub(crate) fn add_entry<K: Sink>(text: &mut TextWriter<K>, entry: Entry)
    ensures text { Adds (view_of K.held K.faults text.old) (view_of K.held K.faults text.new) (entry_text entry) }
    ensures words { IsEntryOfWords entry }
{
    match entry {
        Entry::Revised {
            analyst,
            edit: Edit::Mask(rect),
        } => add_revised(text, analyst, b" mask", rect),
        Entry::Revised {
            analyst,
            edit: Edit::Unmask(rect),
        } => add_revised(text, analyst, b" unmask", rect),
        Entry::Kept { tile, stamp } => add_pair(text, b"kept", tile, stamp),
        Entry::Published { analyst, revision } => add_pair(text, b"published", analyst, revision),
        Entry::Settled { analyst, revision } => add_pair(text, b"settled", analyst, revision),
        Entry::Shown { analyst, revision } => add_shown(text, analyst, revision),
    }
}

/// Adds an entry's word and its two numbers.
fn add_pair<K: Sink>(text: &mut TextWriter<K>, word: &[u8], first: u32, second: u32)
    ensures { Adds (view_of K.held K.faults text.old) (view_of K.held K.faults text.new) (word.now ++ (field_text first ++ field_text second)) }
{
    text.bytes(word);
    add_field(text, first);
    add_field(text, second);
}

fn add_revised<K: Sink>(text: &mut TextWriter<K>, analyst: u32, edit: &[u8], rect: Rect)
    ensures { Adds (view_of K.held K.faults text.old) (view_of K.held K.faults text.new) (codes "revised" ++ (field_text analyst ++ (edit.now ++ rect_text rect))) }
{
    text.bytes(b"revised");
    add_field(text, analyst);
    add_rect(text, edit, rect);
}

fn add_shown<K: Sink>(text: &mut TextWriter<K>, analyst: u32, revision: Option<u32>)
    ensures { Adds (view_of K.held K.faults text.old) (view_of K.held K.faults text.new) (codes "shown" ++ (field_text analyst ++ revision_text revision)) }
{
    text.bytes(b"shown");
    add_field(text, analyst);
    add_revision(text, revision);
}

fn add_revision<K: Sink>(text: &mut TextWriter<K>, revision: Option<u32>)
    ensures { Adds (view_of K.held K.faults text.old) (view_of K.held K.faults text.new) (revision_text revision) }
{
    match revision {
        Some(revision) => add_field(text, revision),
        None => text.bytes(b" none"),
    }
}
