ghost use Rattle.certain_parts.specs.PartsText.{labels_grid, labels_line};
ghost use Rattle.grid_writer.specs.Grid.{grid_row};
ghost use Rattle.raster_model.specs.Masks.{open_at};
ghost use Rattle.std.specs.Prelude.{◌≡◌, ◌<◌, ◌≤◌};
ghost use Rattle.text_lines.specs.Adding.{Adds};
ghost use Rattle.text_lines.specs.Views.{view_of};

use crate::parts::Parts;
use grid_writer::NO_DATA;
use insar_ports::Sink;
use raster_model::Mask;
use text_lines::{TextWriter, add_signed_field};
use text_pages::Passages;

/// No label takes more bytes, with the space or the end of the line after it; nor does the NODATA value.
const LONGEST_VALUE: u32 = 21;

/// The labels of parts under the mask that they were found under: 0 at an open pixel that is in no part. They are written one by
/// one, so that no row is held.
#[derive(Clone, Copy, Drop)]
pub(crate) struct LabelRows<'a> {
    pub(crate) parts: &'a Parts,
    pub(crate) mask: &'a Mask,
    pub(crate) ghost same_size: { (mask.now.width ≡ parts.now.width) × (mask.now.height ≡ parts.now.height) },
    pub(crate) ghost some: { 1 ≤ parts.now.width },
}

impl LabelRows<'_> {
    /// The label of a pixel; the NODATA value if it is masked.
    fn value(&self, x: u32, y: u32) -> i64
        requires across { x < self.now.parts.now.width }
        requires along { y < self.now.parts.now.height }
        ensures { result ≡ (labels_grid self.now.parts.now (open_at self.now.mask.now)).values x y }
    {
        if !self.mask.is_open(x, y) {
            return NO_DATA;
        }
        i64::from(self.parts.label(x, y))
    }

    /// Adds the values of a row, with a space between them.
    fn add_row<K: Sink>(&self, text: &mut TextWriter<K>, y: u32)
        requires along { y < self.now.parts.now.height }
        ensures { Adds (view_of K.held K.faults text.old) (view_of K.held K.faults text.new) (labels_line self.now.parts.now (open_at self.now.mask.now) y self.now.parts.now.width) }
    {
        text.signed(self.value(0, y));
        for x in 1..self.mask.width() {
            add_signed_field(text, self.value(x, y));
        }
    }
}

/// The rows from the top.
impl Passages for LabelRows<'_> {
    ghost passages = { λ rows. rows.parts.now.height };

    ghost words = { λ rows. grid_row (labels_grid rows.parts.now (open_at rows.mask.now)).values rows.parts.now.width };

    ghost known = { λ rows y. Unit };

    fn count(&self) -> u32 {
        self.mask.height()
    }

    fn longest(&self) -> u32 {
        self.mask.width().saturating_mul(LONGEST_VALUE)
    }

    fn add<K: Sink>(&self, text: &mut TextWriter<K>, from: u32, end: u32) {
        for y in from..end {
            self.add_row(text, y);
            text.end_line();
        }
    }
}
