ghost use Rattle.std.specs.Prelude.{codes, flat_map};
ghost use Rattle.text_lines.specs.Adding.{Adds};
ghost use Rattle.text_lines.specs.Text.{field_text};
ghost use Rattle.text_lines.specs.Views.{view_of};
ghost use Rattle.answer_lines.specs.WatchLines.{published_line, reader_line, seen_of};

use insar_ports::Sink;
use text_lines::{TextWriter, add_field};

/// Adds a line for each published revision, in their order.
pub fn add_published<K: Sink>(text: &mut TextWriter<K>, published: &[u32])
    ensures { Adds (view_of K.held K.faults text.old) (view_of K.held K.faults text.new) (flat_map published_line published.now) }
{
    for revision in published {
        add_publication(text, *revision);
    }
}

/// Adds the line of a published revision.
fn add_publication<K: Sink>(text: &mut TextWriter<K>, revision: u32)
    ensures { Adds (view_of K.held K.faults text.old) (view_of K.held K.faults text.new) (published_line revision) }
{
    text.bytes(b"published");
    add_field(text, revision);
    text.end_line();
}

/// Adds the line of a reader, by its number from 1: of the published revisions those that it kept, in their order.
pub fn add_reader<K: Sink>(text: &mut TextWriter<K>, number: u32, published: &[u32], kept: &[u32])
    ensures { Adds (view_of K.held K.faults text.old) (view_of K.held K.faults text.new) (reader_line number (seen_of published.now kept.now)) }
{
    text.bytes(b"reader");
    add_field(text, number);
    add_seen(text, published, kept);
    text.end_line();
}

/// Adds those of the published revisions that were kept, each after a space.
fn add_seen<K: Sink>(text: &mut TextWriter<K>, published: &[u32], kept: &[u32])
    ensures { Adds (view_of K.held K.faults text.old) (view_of K.held K.faults text.new) (flat_map field_text (seen_of published.now kept.now)) }
{
    for number in published {
        if kept.contains(number) {
            add_field(text, *number);
        }
    }
}
