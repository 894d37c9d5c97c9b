ghost use Rattle.grid_writer.specs.Grid.{grid_row};
ghost use Rattle.grid_writer.specs.Grids.{IsLongRow};
ghost use Rattle.text_lines.specs.Adding.{Adds};
ghost use Rattle.text_lines.specs.Numbers.{AreLongs, numbers_line};
ghost use Rattle.text_lines.specs.Views.{view_of};
ghost use Rattle.std.specs.Prelude.{◌++◌, ◌∷◌, []};

use crate::rows::Rows;
use insar_ports::Sink;
use raster_model::MAX_TILED_SIDE;
use text_lines::{TextWriter, add_row, see_longs};
use text_pages::Passages;

/// The most values of a row.
const MAX_WIDTH: usize = MAX_TILED_SIDE as usize;

/// No value takes more bytes, with the space or the end of the line after it.
pub(crate) const LONGEST_VALUE: u32 = 21;

/// The lines of rows of values, from the top.
#[derive(Drop)]
pub(crate) struct RowLines<'a, R> {
    pub(crate) rows: &'a R,
}

/// After a fault the rows are only read.
impl<R: Rows> Passages for RowLines<'_, R> {
    ghost passages = { λ lines. (R.grid lines.rows.now).height };

    ghost words = { λ lines. grid_row (R.grid lines.rows.now).values (R.grid lines.rows.now).width };

    ghost known = { λ lines. IsLongRow (R.grid lines.rows.now) };

    fn count(&self) -> u32 {
        self.rows.height()
    }

    fn longest(&self) -> u32 {
        self.rows.width().saturating_mul(LONGEST_VALUE)
    }

    fn add<K: Sink>(&self, text: &mut TextWriter<K>, from: u32, end: u32) {
        let mut row = [0; MAX_WIDTH];
        let width = self.rows.width() as usize;
        for y in from..end {
            self.rows.fill_row(y, &mut row);
            add_line(text, &row[..width]);
        }
    }
}

/// Adds the line of a row. After a fault nothing is written.
pub(crate) fn add_line<K: Sink>(text: &mut TextWriter<K>, values: &[i64])
    ensures added { Adds (view_of K.held K.faults text.old) (view_of K.held K.faults text.new) (numbers_line values.now ++ 10 ∷ []) }
    ensures longs { AreLongs values.now }
{
    see_longs(values);
    if !text.is_sound() {
        return;
    }
    add_row(text, values);
    text.end_line();
}
