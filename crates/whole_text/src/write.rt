#![tactic(auto, using(text_lines::proofs::AddLemmas::adds_then, text_parts::proofs::LineEnds::adds_line_two))]

ghost use Rattle.raster_model.specs.Heights.{KnowsOpen};
ghost use Rattle.raster_model.specs.Masks.{open_at};
ghost use Rattle.raster_model.specs.Sheets.{sheet_raster};
ghost use Rattle.std.specs.Prelude.{◌≡◌, ◌*◌, ◌-◌, ◌≤◌, length};
ghost use Rattle.text_lines.specs.Adding.{Adds, Puts};
ghost use Rattle.text_lines.specs.Numbers.{AreLongs};
ghost use Rattle.text_lines.specs.Views.{view_of};
ghost use Rattle.text_parts.specs.Terms.{terms_of};
ghost use Rattle.text_parts.specs.Text.{ended_line};
ghost use Rattle.whole_text.specs.Text.{IsWhole, cost_line, face_rows, whole_head, whole_text};
ghost use Rattle.whole_text.specs.Told.{AreFewCycles, task_of, told_whole};

use crate::face_rows::FaceRows;
use crate::rows::SurfaceRows;
use crate::whole::cell_rows_of;
use grid_writer::add_header;
use insar_ports::{Sink, WriteFault};
use raster_model::{Heights, Mask, Sheet};
use std::thread::Threads;
use text_lines::{TextWriter, add_wide_field, see_longs};
use text_pages::{Pages, add_side_by_side};
use text_parts::{add_ramp, add_rule, add_size, add_steepness};

/// Writes the text of a surface over the whole raster: the size, the rule, the terms, the cost, the values in units of
/// 1/65536 cycle, and the faces, one for each cell of the raster in row order. A masked pixel has the NODATA value, an open
/// one lies whole cycles above the phase. Several threads make the lines of rows and of faces, if there are pages for them. It
/// takes no memory. After a fault the sink has a part of the text.
pub fn write_whole<R: Threads + Sync, K: Sink, H: Heights + Sync>(
    rt: &R,
    pages: &mut Pages,
    sheet: &Sheet<'_>,
    mask: &Mask,
    heights: &H,
    faces: &[i64],
    cost: u128,
    sink: &mut K,
) -> Result<(), WriteFault>
    requires same_size { (mask.now.width ≡ sheet.now.phase.now.width) × (mask.now.height ≡ sheet.now.phase.now.height) }
    requires known { KnowsOpen (sheet_raster sheet.now) (open_at mask.now) (H.knows heights.now) }
    requires few { AreFewCycles (sheet_raster sheet.now) (open_at mask.now) (H.cycles_at heights.now) }
    requires one_each { length faces.now ≡ (sheet.now.phase.now.width - 1) * (sheet.now.phase.now.height - 1) }
    ensures put { Puts (K.held sink.old) (K.faults sink.old) (K.held sink.new) (K.faults sink.new) (whole_text (told_whole (task_of sheet.now mask.now) (H.cycles_at heights.now) faces.now cost)) result }
    // The text can be read: each of its numbers is in its range.
    ensures ranges { IsWhole (told_whole (task_of sheet.now mask.now) (H.cycles_at heights.now) faces.now cost) }
{
    let surface = SurfaceRows {
        sheet,
        mask,
        heights,
    };
    let mut text = TextWriter::new(sink);
    let (width, height) = (sheet.phase.width, sheet.phase.height);
    add_head(&mut text, sheet, cost);
    add_header(&mut text, width, height);
    add_side_by_side(rt, pages, &mut text, &surface);
    add_faces(rt, pages, &mut text, width, height, faces);
    text.bytes(b"end\n");
    text.finish()
}

/// Adds the lines before the grid.
fn add_head<K: Sink>(text: &mut TextWriter<K>, sheet: &Sheet<'_>, cost: u128)
    ensures { Adds (view_of K.held K.faults text.old) (view_of K.held K.faults text.new) (whole_head sheet.now.phase.now.width sheet.now.phase.now.height sheet.now.rule (terms_of sheet.now.terms) cost) }
{
    text.bytes(b"insar-whole 1\n");
    add_size(text, sheet.phase.width, sheet.phase.height);
    add_rule(text, sheet.rule);
    add_ramp(text, sheet.terms.ramp_x, sheet.terms.ramp_y);
    add_steepness(text, sheet.terms.steep);
    add_cost(text, cost);
}

fn add_cost<K: Sink>(text: &mut TextWriter<K>, cost: u128)
    ensures { Adds (view_of K.held K.faults text.old) (view_of K.held K.faults text.new) (ended_line cost_line cost) }
{
    text.bytes(b"cost");
    add_wide_field(text, cost);
    text.end_line();
}

/// Adds the lines of the faces of a raster of this size.
fn add_faces<R: Threads + Sync, K: Sink>(
    rt: &R,
    pages: &mut Pages,
    text: &mut TextWriter<K>,
    width: u32,
    height: u32,
    faces: &[i64],
)
    requires size { (1 ≤ width) × (1 ≤ height) }
    requires one_each { length faces.now ≡ (width - 1) * (height - 1) }
    ensures added { Adds (view_of K.held K.faults text.old) (view_of K.held K.faults text.new) (face_rows width height faces.now) }
    ensures longs { AreLongs faces.now }
{
    see_longs(faces);
    let lines = FaceRows {
        faces,
        across: width as usize - 1,
        rows: cell_rows_of(width, height),
    };
    add_side_by_side(rt, pages, text, &lines);
}
