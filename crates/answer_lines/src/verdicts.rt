ghost use Rattle.answer_lines.specs.VerdictLines.{direction, edge_text, seam_words, surface_refused, surface_start, tile_words, verdict_line, verdict_text};
ghost use Rattle.std.specs.Prelude.{◌≡◌, ◌++◌, codes};
ghost use Rattle.text_lines.specs.Adding.{Adds, Puts};
ghost use Rattle.text_lines.specs.Numbers.{number_text};
ghost use Rattle.text_lines.specs.Text.{field_text};
ghost use Rattle.text_lines.specs.Views.{view_of};

use certificates::{SeamVerdict, TileVerdict};
use insar_ports::{Sink, WriteFault};
use raster_model::Edge;
use report_check::CheckVerdict;
use text_lines::{
    TextWriter, add_field, add_long_field, add_signed_field, add_wide_field, add_wide_signed_field,
};

/// Puts the line of a verdict. It takes no memory. After a fault the sink has a part of the line.
pub fn put_verdict<K: Sink>(sink: &mut K, verdict: CheckVerdict) -> Result<(), WriteFault>
    ensures { Puts (K.held sink.old) (K.faults sink.old) (K.held sink.new) (K.faults sink.new) (verdict_line verdict) result }
{
    let mut text = TextWriter::new(sink);
    add_line(&mut text, verdict);
    text.finish()
}

fn add_line<K: Sink>(text: &mut TextWriter<K>, verdict: CheckVerdict)
    ensures { Adds (view_of K.held K.faults text.old) (view_of K.held K.faults text.new) (verdict_line verdict) }
{
    add_verdict(text, verdict);
    text.end_line();
}

/// Adds what the line says, without its end.
fn add_verdict<K: Sink>(text: &mut TextWriter<K>, verdict: CheckVerdict)
    ensures { Adds (view_of K.held K.faults text.old) (view_of K.held K.faults text.new) (verdict_text verdict) }
{
    match verdict {
        CheckVerdict::Accepted => text.bytes(b"accepted"),
        CheckVerdict::Header(line) => add_header(text, line),
        CheckVerdict::History(entry) => add_history(text, entry),
        CheckVerdict::Value { revision, x, y } => add_value(text, revision, x, y),
        CheckVerdict::Tile {
            revision,
            tile,
            verdict,
        } => add_tile(text, revision, tile, verdict),
        CheckVerdict::Seams { revision, verdict } => add_seams(text, revision, verdict),
        CheckVerdict::TileCost {
            revision,
            written,
            counted,
        } => add_costs(text, revision, b" tilecost", written, counted),
        CheckVerdict::SeamCost {
            revision,
            written,
            counted,
        } => add_costs(text, revision, b" seamcost", written, counted),
    }
}

pub(crate) fn add_header<K: Sink>(text: &mut TextWriter<K>, line: u32)
    ensures { Adds (view_of K.held K.faults text.old) (view_of K.held K.faults text.new) (codes "refused header" ++ field_text line) }
{
    text.bytes(b"refused header");
    add_field(text, line);
}

fn add_history<K: Sink>(text: &mut TextWriter<K>, entry: u64)
    ensures { Adds (view_of K.held K.faults text.old) (view_of K.held K.faults text.new) (codes "refused history" ++ field_text entry) }
{
    text.bytes(b"refused history");
    add_long_field(text, entry);
}

/// Adds that the surface of a revision is refused.
fn add_start<K: Sink>(text: &mut TextWriter<K>, revision: u32)
    ensures { Adds (view_of K.held K.faults text.old) (view_of K.held K.faults text.new) (surface_start revision) }
{
    text.bytes(b"refused surface");
    add_field(text, revision);
}

fn add_value<K: Sink>(text: &mut TextWriter<K>, revision: u32, x: u32, y: u32)
    ensures { Adds (view_of K.held K.faults text.old) (view_of K.held K.faults text.new) (surface_refused revision (codes " value" ++ (field_text x ++ field_text y))) }
{
    add_start(text, revision);
    add_pixel(text, b" value", x, y);
}

/// Adds a word and a pixel.
pub(crate) fn add_pixel<K: Sink>(text: &mut TextWriter<K>, word: &[u8], x: u32, y: u32)
    ensures { Adds (view_of K.held K.faults text.old) (view_of K.held K.faults text.new) (word.now ++ (field_text x ++ field_text y)) }
{
    text.bytes(word);
    add_field(text, x);
    add_field(text, y);
}

fn add_tile<K: Sink>(text: &mut TextWriter<K>, revision: u32, tile: u32, verdict: TileVerdict)
    ensures { Adds (view_of K.held K.faults text.old) (view_of K.held K.faults text.new) (surface_refused revision (codes " tile" ++ (field_text tile ++ tile_words verdict))) }
{
    add_start(text, revision);
    text.bytes(b" tile");
    add_field(text, tile);
    add_tile_words(text, verdict);
}

fn add_seams<K: Sink>(text: &mut TextWriter<K>, revision: u32, verdict: SeamVerdict)
    ensures { Adds (view_of K.held K.faults text.old) (view_of K.held K.faults text.new) (surface_refused revision (codes " seams" ++ seam_words verdict)) }
{
    add_start(text, revision);
    text.bytes(b" seams");
    add_seam_words(text, verdict);
}

/// Adds that the written cost, which the word names, is not the counted one.
fn add_costs<K: Sink>(
    text: &mut TextWriter<K>,
    revision: u32,
    word: &[u8],
    written: u128,
    counted: u128,
)
    ensures { Adds (view_of K.held K.faults text.old) (view_of K.held K.faults text.new) (surface_refused revision (word.now ++ (field_text written ++ field_text counted))) }
{
    add_start(text, revision);
    text.bytes(word);
    add_wide_field(text, written);
    add_wide_field(text, counted);
}

/// Adds why the faces of a tile are refused.
#[tactic(auto, using(text_lines::proofs::AddLemmas::adds_nothing))]
fn add_tile_words<K: Sink>(text: &mut TextWriter<K>, verdict: TileVerdict)
    ensures { Adds (view_of K.held K.faults text.old) (view_of K.held K.faults text.new) (tile_words verdict) }
{
    match verdict {
        TileVerdict::Good | TileVerdict::Range { .. } => {}
        TileVerdict::Shape => text.bytes(b" shape"),
        TileVerdict::FaceAtEdge(edge) => add_at_edge(text, b" face", edge),
        TileVerdict::CostDiffers { cost, bound } => add_difference(text, cost, bound),
    }
}

/// Adds why the flows at the seams are refused.
#[tactic(auto, using(text_lines::proofs::AddLemmas::adds_nothing))]
fn add_seam_words<K: Sink>(text: &mut TextWriter<K>, verdict: SeamVerdict)
    ensures { Adds (view_of K.held K.faults text.old) (view_of K.held K.faults text.new) (seam_words verdict) }
{
    match verdict {
        SeamVerdict::Good | SeamVerdict::Range(_) => {}
        SeamVerdict::Shape => text.bytes(b" shape"),
        SeamVerdict::Anchor(cycles) => add_anchor(text, cycles),
        SeamVerdict::FlowAtEdge(edge) => add_at_edge(text, b" flow", edge),
        SeamVerdict::Unbalanced(region) => add_unbalanced(text, region),
        SeamVerdict::CostDiffers { cost, bound } => add_difference(text, cost, bound),
    }
}

fn add_anchor<K: Sink>(text: &mut TextWriter<K>, cycles: i64)
    ensures { Adds (view_of K.held K.faults text.old) (view_of K.held K.faults text.new) (codes " anchor" ++ number_text cycles) }
{
    text.bytes(b" anchor");
    add_signed_field(text, cycles);
}

fn add_unbalanced<K: Sink>(text: &mut TextWriter<K>, region: u32)
    ensures { Adds (view_of K.held K.faults text.old) (view_of K.held K.faults text.new) (codes " unbalanced" ++ field_text region) }
{
    text.bytes(b" unbalanced");
    add_field(text, region);
}

/// Adds a cost, and the bound that it is not.
fn add_difference<K: Sink>(text: &mut TextWriter<K>, cost: u128, bound: i128)
    ensures { Adds (view_of K.held K.faults text.old) (view_of K.held K.faults text.new) (codes " cost" ++ (field_text cost ++ (codes " bound" ++ number_text bound))) }
{
    text.bytes(b" cost");
    add_wide_field(text, cost);
    text.bytes(b" bound");
    add_wide_signed_field(text, bound);
}

/// Adds a word and an edge.
pub(crate) fn add_at_edge<K: Sink>(text: &mut TextWriter<K>, word: &[u8], edge: Edge)
    ensures { Adds (view_of K.held K.faults text.old) (view_of K.held K.faults text.new) (word.now ++ edge_text edge) }
{
    text.bytes(word);
    add_edge(text, edge);
}

/// Adds an edge: its direction and its first pixel.
fn add_edge<K: Sink>(text: &mut TextWriter<K>, edge: Edge)
    ensures { Adds (view_of K.held K.faults text.old) (view_of K.held K.faults text.new) (edge_text edge) }
{
    text.bytes(direction_name(edge.down));
    add_field(text, edge.x);
    add_field(text, edge.y);
}

fn direction_name(down: bool) -> &'static [u8]
    ensures { result.now ≡ direction down }
{
    if down { b" down" } else { b" right" }
}
