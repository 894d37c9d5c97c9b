ghost use Rattle.certain_parts.specs.PartsText.{part_line, part_lines, parts_line, parts_text};
ghost use Rattle.raster_model.specs.Masks.{open_at};
ghost use Rattle.std.specs.Prelude.{◌≡◌, ◌≤◌};
ghost use Rattle.text_lines.specs.Adding.{Adds, Puts};
ghost use Rattle.text_lines.specs.Views.{view_of};

use crate::parts::Parts;
use crate::rows::LabelRows;
use grid_writer::add_header;
use insar_ports::{Sink, WriteFault};
use raster_model::Mask;
use text_lines::{TextWriter, add_field};
use text_pages::add_all;

/// Writes the parts that were found under a mask at a limit, with at least `least` pixels each: the line `parts P T N` with
/// their number, the limit and `least`, then for each part in order a line `part X Y SIZE` with its first pixel in row order
/// and its pixels, then the grid of the labels, with the NODATA value at masked pixels. It takes no memory. After a fault the
/// sink has a part of the text.
pub fn write_parts<K: Sink>(
    parts: &Parts,
    mask: &Mask,
    limit: u32,
    least: u32,
    sink: &mut K,
) -> Result<(), WriteFault>
    requires same_size { (mask.now.width ≡ parts.now.width) × (mask.now.height ≡ parts.now.height) }
    ensures { Puts (K.held sink.old) (K.faults sink.old) (K.held sink.new) (K.faults sink.new) (parts_text parts.now (open_at mask.now) limit least) result }
{
    let mut text = TextWriter::new(sink);
    add_counts(&mut text, parts, limit, least);
    add_parts(&mut text, parts);
    add_header(&mut text, mask.width(), mask.height());
    add_all(&mut text, &LabelRows { parts, mask });
    text.finish()
}

/// Adds the line of how many parts there are, the limit and the least size.
fn add_counts<K: Sink>(text: &mut TextWriter<K>, parts: &Parts, limit: u32, least: u32)
    ensures { Adds (view_of K.held K.faults text.old) (view_of K.held K.faults text.new) (parts_line parts.now limit least) }
{
    text.bytes(b"parts");
    add_field(text, parts.count());
    add_field(text, limit);
    add_field(text, least);
    text.end_line();
}

/// Adds the lines of the parts.
fn add_parts<K: Sink>(text: &mut TextWriter<K>, parts: &Parts)
    ensures { Adds (view_of K.held K.faults text.old) (view_of K.held K.faults text.new) (part_lines parts.now parts.now.count) }
{
    for before in 0..parts.count() {
        add_part(text, parts, before + 1);
    }
}

/// Adds the line of a part.
fn add_part<K: Sink>(text: &mut TextWriter<K>, parts: &Parts, part: u32)
    requires one { 1 ≤ part }
    requires below { part ≤ parts.now.count }
    ensures { Adds (view_of K.held K.faults text.old) (view_of K.held K.faults text.new) (part_line parts.now part) }
{
    let (x, y) = parts.first(part);
    text.bytes(b"part");
    add_field(text, x);
    add_field(text, y);
    add_field(text, parts.size(part));
    text.end_line();
}
