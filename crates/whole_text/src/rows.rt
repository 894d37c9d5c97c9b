ghost use Rattle.grid_writer.specs.Grid.{grid_row};
ghost use Rattle.raster_model.specs.Heights.{KnowsOpen};
ghost use Rattle.raster_model.specs.Masks.{open_at};
ghost use Rattle.raster_model.specs.Sheets.{sheet_raster};
ghost use Rattle.std.specs.Prelude.{◌*◌, ◌≡◌, ◌<◌, ◌+ℤ◌, ◌*ℤ◌, pos, unsigned_abs};
ghost use Rattle.text_lines.specs.Adding.{Adds};
ghost use Rattle.text_lines.specs.Numbers.{FitsLong};
ghost use Rattle.text_lines.specs.Views.{view_of};
ghost use Rattle.whole_text.specs.Told.{AreFewCycles, value_above};

use grid_writer::NO_DATA;
use insar_ports::Sink;
use raster_model::{Heights, MAX_WHOLE_CYCLES, Mask, Sheet};
use text_lines::{TextWriter, add_signed_field};
use text_pages::Passages;

/// No value takes more bytes, with the space or the end of the line after it.
const LONGEST_VALUE: u32 = 21;

/// The rows of the surface that lies whole cycles above the phase at the open pixels.
#[derive(Drop)]
pub(crate) struct SurfaceRows<'a, H: Heights> {
    pub(crate) sheet: &'a Sheet<'a>,
    pub(crate) mask: &'a Mask,
    pub(crate) heights: &'a H,
    pub(crate) ghost same_size: { (mask.now.width ≡ sheet.now.phase.now.width) × (mask.now.height ≡ sheet.now.phase.now.height) },
    pub(crate) ghost known: { KnowsOpen (sheet_raster sheet.now) (open_at mask.now) (H.knows heights.now) },
    pub(crate) ghost few: { AreFewCycles (sheet_raster sheet.now) (open_at mask.now) (H.cycles_at heights.now) },
}

/// The value that lies this many whole cycles above a phase, in units of 1/65536 cycle.
fn value_at(sample: u16, cycles: i64) -> i64
    requires { unsigned_abs cycles < 2 * MAX_WHOLE_CYCLES }
    ensures { result ≡ pos sample +ℤ pos 65536 *ℤ cycles }
{
    i64::from(sample) + 65536 * cycles
}

impl<H: Heights> SurfaceRows<'_, H> {
    /// The value at a pixel; the NODATA value if it is masked.
    fn value(&self, x: u32, y: u32) -> i64
        requires across { x < self.now.sheet.now.phase.now.width }
        requires along { y < self.now.sheet.now.phase.now.height }
        ensures value { result ≡ value_above (sheet_raster self.now.sheet.now) (open_at self.now.mask.now) (H.cycles_at self.now.heights.now) x y }
        ensures fits { FitsLong result }
    {
        if !self.mask.is_open(x, y) {
            return NO_DATA;
        }
        value_at(self.sheet.phase.sample(x, y), self.heights.cycles(x, y))
    }

    /// Adds the line of row `y`. After a fault nothing is written.
    fn add_line<K: Sink>(&self, text: &mut TextWriter<K>, y: u32)
        requires { y < self.now.sheet.now.phase.now.height }
        ensures { Adds (view_of K.held K.faults text.old) (view_of K.held K.faults text.new) (grid_row (value_above (sheet_raster self.now.sheet.now) (open_at self.now.mask.now) (H.cycles_at self.now.heights.now)) self.now.sheet.now.phase.now.width y) }
    {
        if !text.is_sound() {
            return;
        }
        text.signed(self.value(0, y));
        for x in 1..self.sheet.phase.width {
            add_signed_field(text, self.value(x, y));
        }
        text.end_line();
    }
}

/// After a fault the rows are passed.
impl<H: Heights> Passages for SurfaceRows<'_, H> {
    ghost passages = { λ s. s.sheet.now.phase.now.height };

    ghost words = { λ s. grid_row (value_above (sheet_raster s.sheet.now) (open_at s.mask.now) (H.cycles_at s.heights.now)) s.sheet.now.phase.now.width };

    ghost known = { λ s y. y ≡ y };

    fn count(&self) -> u32 {
        self.sheet.phase.height
    }

    fn longest(&self) -> u32 {
        self.sheet.phase.width.saturating_mul(LONGEST_VALUE)
    }

    fn add<K: Sink>(&self, text: &mut TextWriter<K>, from: u32, end: u32) {
        for y in from..end {
            self.add_line(text, y);
        }
    }
}
