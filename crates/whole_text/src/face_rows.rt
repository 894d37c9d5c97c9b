ghost use Rattle.std.specs.Prelude.{◌*◌, ◌≡◌, ◌≤◌, length};
ghost use Rattle.text_lines.specs.Adding.{Adds};
ghost use Rattle.text_lines.specs.Views.{view_of};
ghost use Rattle.text_parts.specs.Text.{ended_line};
ghost use Rattle.whole_text.specs.Text.{face_row, row_of};

use insar_ports::Sink;
use text_lines::{TextWriter, add_numbers};
use text_pages::Passages;

/// No face takes more bytes, with the space before it; nor do the word and the end of the line.
const LONGEST_FACE: u32 = 21;

/// The lines of faces of a raster, one for each row of its cells.
#[derive(Drop)]
pub(crate) struct FaceRows<'a> {
    /// One for each cell, in row order.
    pub(crate) faces: &'a [i64],
    /// How many each line has.
    pub(crate) across: usize,
    /// How many lines there are.
    pub(crate) rows: u32,
    pub(crate) ghost enough: { rows * across ≤ length faces.now },
}

/// After a fault they are only read.
impl Passages for FaceRows<'_> {
    ghost passages = { λ s. s.rows };

    ghost words = { λ s y. ended_line face_row (row_of s.across s.faces.now y) };

    ghost known = { λ s y. y ≡ y };

    fn count(&self) -> u32 {
        self.rows
    }

    fn longest(&self) -> u32 {
        let across = u32::try_from(self.across).unwrap_or(u32::MAX);
        across.saturating_add(1).saturating_mul(LONGEST_FACE)
    }

    fn add<K: Sink>(&self, text: &mut TextWriter<K>, from: u32, end: u32) {
        for row in from..end {
            let start = row as usize * self.across;
            add_row(text, &self.faces[start..start + self.across]);
        }
    }
}

/// Adds the line of a row of faces.
fn add_row<K: Sink>(text: &mut TextWriter<K>, faces: &[i64])
    ensures { Adds (view_of K.held K.faults text.old) (view_of K.held K.faults text.new) (ended_line face_row faces.now) }
{
    text.bytes(b"faces");
    add_numbers(text, faces);
    text.end_line();
}
