ghost use Rattle.grid_writer.specs.Grid.{header_lines};
ghost use Rattle.grid_writer.specs.Grids.{grid_of};
ghost use Rattle.grid_writer.specs.Putting.{AddsGrid, PutsGrid};
ghost use Rattle.grid_writer.specs.Shown.{shown_grid};
ghost use Rattle.raster_model.specs.Limits.{is_tiled_size};
ghost use Rattle.std.specs.Prelude.{◌++◌, ◌∷◌, [], IsTrue, decimal};
ghost use Rattle.surface_snapshots.specs.Views.{parts_of};
ghost use Rattle.text_lines.specs.Adding.{Adds};
ghost use Rattle.text_lines.specs.Views.{view_of};

use crate::row_lines::RowLines;
use crate::rows::Rows;
use crate::value_lines::ValueLines;
use crate::values::Grid;
use insar_ports::{Sink, WriteFault};
use std::thread::Threads;
use surface_snapshots::Snapshot;
use text_lines::TextWriter;
use text_pages::{Pages, add_all, add_side_by_side};

/// The lines of the header that are the same in every grid.
pub(crate) const FRAME: &[u8] =
    b"xllcorner 0\nyllcorner 0\ncellsize 1\nNODATA_value -9223372036854775808\n";

/// Adds a line with a number after its label.
fn add_size<K: Sink>(text: &mut TextWriter<K>, label: &[u8], count: u32)
    ensures { Adds (view_of K.held K.faults text.old) (view_of K.held K.faults text.new) ((label.now ++ decimal count) ++ 10 ∷ []) }
{
    text.bytes(label);
    text.number(count);
    text.end_line();
}

/// Adds the header of a grid of this size, before its rows: six lines.
pub fn add_header<K: Sink>(text: &mut TextWriter<K>, width: u32, height: u32)
    ensures { Adds (view_of K.held K.faults text.old) (view_of K.held K.faults text.new) (header_lines width height) }
{
    add_size(text, b"ncols ", width);
    add_size(text, b"nrows ", height);
    text.bytes(FRAME);
}

/// Adds the header of the grid of rows.
fn add_head<K: Sink, R: Rows>(text: &mut TextWriter<K>, rows: &R)
    ensures sized { IsTrue (is_tiled_size (R.grid rows.now).width (R.grid rows.now).height) }
    ensures added { Adds (view_of K.held K.faults text.old) (view_of K.held K.faults text.new) (header_lines (R.grid rows.now).width (R.grid rows.now).height) }
{
    add_header(text, rows.width(), rows.height());
}

/// Adds the grid of rows of values to a text, as [`write_grid`] writes it. After a fault the rows are read, and nothing
/// more is written.
pub fn add_grid<K: Sink, R: Rows>(text: &mut TextWriter<K>, rows: &R)
    ensures { AddsGrid (view_of K.held K.faults text.old) (view_of K.held K.faults text.new) (R.grid rows.now) }
{
    add_head(text, rows);
    add_all(text, &RowLines { rows });
}

/// Adds a grid that is held, in the same way.
pub fn add_values<K: Sink>(text: &mut TextWriter<K>, grid: &Grid)
    ensures { AddsGrid (view_of K.held K.faults text.old) (view_of K.held K.faults text.new) (grid_of grid.now) }
{
    add_header(text, grid.width, grid.height);
    add_all(text, &ValueLines { grid });
}

/// Adds a grid as [`add_grid`] does. Several threads make its rows, if there are pages for them.
pub fn add_grid_side_by_side<T: Threads + Sync, K: Sink, R: Rows + Sync>(
    rt: &T,
    pages: &mut Pages,
    text: &mut TextWriter<K>,
    rows: &R,
)
    ensures { AddsGrid (view_of K.held K.faults text.old) (view_of K.held K.faults text.new) (R.grid rows.now) }
{
    add_head(text, rows);
    add_side_by_side(rt, pages, text, &RowLines { rows });
}

/// Writes the grid of a snapshot's surface, in units of 1/65536 cycle: six lines of header, then the rows from
/// the top, each of its values separated by a space. A masked pixel has the NODATA value. It takes no memory. After
/// a fault the sink has a part of the text. (Esri ASCII raster, in one spelling.)
pub fn write_grid<K: Sink>(snapshot: &Snapshot, sink: &mut K) -> Result<(), WriteFault>
    ensures { PutsGrid (K.held sink.old) (K.faults sink.old) (K.held sink.new) (K.faults sink.new) (shown_grid (parts_of snapshot.now)) result }
{
    let mut text = TextWriter::new(sink);
    add_grid(&mut text, snapshot);
    text.finish()
}

/// Writes the grid of a snapshot's surface as [`write_grid`] does. Several threads make its rows, if there are pages for them.
pub fn write_grid_side_by_side<T: Threads + Sync, K: Sink>(
    rt: &T,
    pages: &mut Pages,
    snapshot: &Snapshot,
    sink: &mut K,
) -> Result<(), WriteFault>
    ensures { PutsGrid (K.held sink.old) (K.faults sink.old) (K.held sink.new) (K.faults sink.new) (shown_grid (parts_of snapshot.now)) result }
{
    let mut text = TextWriter::new(sink);
    add_grid_side_by_side(rt, pages, &mut text, snapshot);
    text.finish()
}

/// Writes a grid that is held, as [`write_grid`] writes a surface. It takes no memory. After a fault the sink has a part of
/// the text.
pub fn write_values<K: Sink>(grid: &Grid, sink: &mut K) -> Result<(), WriteFault>
    ensures { PutsGrid (K.held sink.old) (K.faults sink.old) (K.held sink.new) (K.faults sink.new) (grid_of grid.now) result }
{
    let mut text = TextWriter::new(sink);
    add_values(&mut text, grid);
    text.finish()
}
