ghost use Rattle.raster_model.specs.Tiles.{tiles_of};
ghost use Rattle.report_text.specs.Text.{faces_line, faces_text};
ghost use Rattle.std.specs.Prelude.{◌≡◌};
ghost use Rattle.surface_snapshots.specs.Parts.{faces_in};
ghost use Rattle.surface_snapshots.specs.Views.{parts_of};
ghost use Rattle.text_lines.specs.Adding.{Adds};
ghost use Rattle.text_lines.specs.Numbers.{AreLongs};
ghost use Rattle.text_lines.specs.Views.{view_of};
ghost use Rattle.text_parts.specs.Text.{ended_line};

use insar_ports::Sink;
use surface_snapshots::Snapshot;
use text_lines::{TextWriter, add_field, add_numbers};
use text_pages::Passages;

/// No face takes more bytes, with the space before it; nor do the word, a tile's number and the end of the line.
const LONGEST_FACE: u32 = 21;

/// The lines of faces of a surface, one for each tile.
#[derive(Drop)]
pub(crate) struct FaceLines<'a> {
    pub(crate) snapshot: &'a Snapshot,
    /// How many tiles there are.
    pub(crate) tiles: u32,
    pub ghost counted: { tiles ≡ tiles_of (parts_of snapshot.now).session.scene.tiling },
}

/// After a fault they are only read.
impl Passages for FaceLines<'_> {
    ghost passages = { λ lines. lines.tiles };

    ghost words = { λ lines. faces_text (faces_in (parts_of lines.snapshot.now)) };

    ghost known = { λ lines t. AreLongs (faces_in (parts_of lines.snapshot.now) t) };

    fn count(&self) -> u32 {
        self.tiles
    }

    /// No tile has more faces than the first.
    fn longest(&self) -> u32 {
        if self.tiles == 0 {
            return LONGEST_FACE;
        }
        let faces = u32::try_from(self.snapshot.faces(0).len()).unwrap_or(u32::MAX);
        faces.saturating_add(1).saturating_mul(LONGEST_FACE)
    }

    fn add<K: Sink>(&self, text: &mut TextWriter<K>, from: u32, end: u32) {
        for tile in from..end {
            add_tile(text, tile, self.snapshot.faces(tile));
        }
    }
}

/// Adds the line of a tile's faces.
fn add_tile<K: Sink>(text: &mut TextWriter<K>, tile: u32, faces: &[i64])
    ensures text { Adds (view_of K.held K.faults text.old) (view_of K.held K.faults text.new) (ended_line (faces_line tile) faces.now) }
    ensures longs { AreLongs faces.now }
{
    text.bytes(b"faces");
    add_field(text, tile);
    add_numbers(text, faces);
    text.end_line();
}
