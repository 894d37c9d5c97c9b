ghost use Rattle.grid_writer.specs.Grid.{grid_row};
ghost use Rattle.grid_writer.specs.Grids.{IsLongRow, grid_of};

use crate::row_lines::{LONGEST_VALUE, add_line};
use crate::values::Grid;
use insar_ports::Sink;
use text_lines::TextWriter;
use text_pages::Passages;

/// The lines of a grid that is held, from the top.
#[derive(Clone, Copy, Drop)]
pub(crate) struct ValueLines<'a> {
    pub(crate) grid: &'a Grid,
}

/// After a fault the values are only read.
impl Passages for ValueLines<'_> {
    ghost passages = { λ lines. (grid_of lines.grid.now).height };

    ghost words = { λ lines. grid_row (grid_of lines.grid.now).values (grid_of lines.grid.now).width };

    ghost known = { λ lines. IsLongRow (grid_of lines.grid.now) };

    fn count(&self) -> u32 {
        self.grid.height
    }

    fn longest(&self) -> u32 {
        self.grid.width.saturating_mul(LONGEST_VALUE)
    }

    fn add<K: Sink>(&self, text: &mut TextWriter<K>, from: u32, end: u32) {
        let width = self.grid.width as usize;
        for y in from..end {
            let start = y as usize * width;
            add_line(text, &self.grid.values[start..start + width]);
        }
    }
}
