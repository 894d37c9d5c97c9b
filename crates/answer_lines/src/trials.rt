ghost use Rattle.answer_lines.specs.TrialLines.{IsLeastCost, count_grid, count_row, four_lines, has_residue, number_line, open_pixels_of, residues_of};
ghost use Rattle.raster_model.specs.Masks.{open_at};
ghost use Rattle.raster_model.specs.Scene.{raster_of};
ghost use Rattle.std.specs.Prelude.{◌≡◌, ◌+◌, ◌-◌, ◌*◌, ◌<◌, ◌≤◌, codes};
ghost use Rattle.text_lines.specs.Adding.{Adds, Puts};
ghost use Rattle.text_lines.specs.Views.{view_of};
ghost use Rattle.tile_board.specs.Histories.{IsComplete};
ghost use Rattle.trial_maker.specs.Trials.{AreTrialScripts};

use insar_ports::{Sink, WriteFault};
use raster_model::{MAX_SIDE, MAX_TILED_SIDE, Mask, Scene, Session, plain};
use text_lines::TextWriter;
use tile_board::Board;

/// What a trial says of a session and of its published surface.
#[derive(Clone, Copy)]
pub struct Summary {
    /// How many pixels the raster has.
    pub pixels: u32,
    /// How many cells of the whole raster have a residue other than 0.
    pub residues: u32,
    /// How many pixels are open in the first mask.
    pub unmasked: u32,
    /// The cost of all tiles.
    pub tile_cost: u128,
}

/// The summary of a board on which the one analyst of a trial has settled and looked.
pub fn summary_of(board: &Board) -> Summary
    requires scripts { AreTrialScripts board.now.session.scripts.items }
    requires complete { IsComplete board.now.session board.now.entries }
    ensures pixels { result.pixels ≡ board.now.session.scene.phase.width * board.now.session.scene.phase.height }
    ensures residues { result.residues ≡ residues_of (raster_of board.now.session.scene) }
    ensures unmasked { result.unmasked ≡ open_pixels_of board.now.session }
    ensures cost { IsLeastCost (raster_of board.now.session.scene) (open_at board.now.session.first_mask) result.tile_cost }
{
    let tile_cost = newest_cost(board);
    summary_with(board.session(), tile_cost)
}

/// The summary of a session with the cost of its surface's tiles.
fn summary_with(session: &Session, tile_cost: u128) -> Summary
    ensures pixels { result.pixels ≡ session.now.scene.phase.width * session.now.scene.phase.height }
    ensures residues { result.residues ≡ residues_of (raster_of session.now.scene) }
    ensures unmasked { result.unmasked ≡ open_pixels_of session.now }
    ensures cost { result.tile_cost ≡ tile_cost }
{
    Summary {
        pixels: session.scene.phase.width * session.scene.phase.height,
        residues: count_residues(&session.scene),
        unmasked: count_open(&session.first_mask),
        tile_cost,
    }
}

/// The cost of the tiles of the newest published surface.
fn newest_cost(board: &Board) -> u128
    requires scripts { AreTrialScripts board.now.session.scripts.items }
    requires complete { IsComplete board.now.session board.now.entries }
    ensures { IsLeastCost (raster_of board.now.session.scene) (open_at board.now.session.first_mask) result }
{
    match board.snapshots().last() {
        Some(newest) => newest.tile_cost(),
        None => unreachable!(),
    }
}

/// How many cells of the whole raster have a residue other than 0, whichever tiles their corners lie in.
#[tactic(auto, using(crate::proofs::SummaryLemmas::counting))]
fn count_residues(scene: &Scene) -> u32
    ensures { result ≡ residues_of (raster_of scene.now) }
{
    let mut count = 0;
    for y in 0..scene.phase.height - 1 {
        count += residues_in_row(scene, y);
    }
    count
}

/// How many of the cells have one whose upper corners lie in row `y`.
#[tactic(auto, using(crate::proofs::SummaryLemmas::counting))]
fn residues_in_row(scene: &Scene, y: u32) -> u32
    requires { y + 1 < scene.now.phase.height }
    ensures value { result ≡ count_row (scene.now.phase.width - 1) (has_residue (raster_of scene.now)) y }
    ensures small { result ≤ MAX_TILED_SIDE }
{
    let mut count = 0;
    for x in 0..scene.phase.width - 1 {
        count += u32::from(plain::residue(scene, x, y) != 0);
    }
    count
}

/// How many pixels of a mask are open.
#[tactic(auto, using(crate::proofs::SummaryLemmas::counting))]
fn count_open(mask: &Mask) -> u32
    ensures { result ≡ count_grid mask.now.width mask.now.height (open_at mask.now) }
{
    let mut count = 0;
    for y in 0..mask.height() {
        count += open_in_row(mask, y);
    }
    count
}

/// How many of them lie in row `y`.
#[tactic(auto, using(crate::proofs::SummaryLemmas::counting))]
fn open_in_row(mask: &Mask, y: u32) -> u32
    requires { y < mask.now.height }
    ensures value { result ≡ count_row mask.now.width (open_at mask.now) y }
    ensures small { result ≤ MAX_SIDE }
{
    let mut count = 0;
    for x in 0..mask.width() {
        count += u32::from(mask.is_open(x, y));
    }
    count
}

/// Puts the four lines of a summary. It takes no memory. After a fault the sink has a part of them.
pub fn put_summary<K: Sink>(sink: &mut K, summary: Summary) -> Result<(), WriteFault>
    ensures { Puts (K.held sink.old) (K.faults sink.old) (K.held sink.new) (K.faults sink.new) (four_lines summary.pixels summary.residues summary.unmasked summary.tile_cost) result }
{
    let mut text = TextWriter::new(sink);
    add_lines(&mut text, summary);
    text.finish()
}

fn add_lines<K: Sink>(text: &mut TextWriter<K>, summary: Summary)
    ensures { Adds (view_of K.held K.faults text.old) (view_of K.held K.faults text.new) (four_lines summary.pixels summary.residues summary.unmasked summary.tile_cost) }
{
    add_count(text, b"pixels ", summary.pixels);
    add_count(text, b"residues ", summary.residues);
    add_count(text, b"unmasked ", summary.unmasked);
    add_cost(text, summary.tile_cost);
}

/// Adds a line of a word and a number.
fn add_count<K: Sink>(text: &mut TextWriter<K>, word: &[u8], count: u32)
    ensures { Adds (view_of K.held K.faults text.old) (view_of K.held K.faults text.new) (number_line word.now count) }
{
    text.bytes(word);
    text.number(count);
    text.end_line();
}

fn add_cost<K: Sink>(text: &mut TextWriter<K>, cost: u128)
    ensures { Adds (view_of K.held K.faults text.old) (view_of K.held K.faults text.new) (number_line (codes "cost ") cost) }
{
    text.bytes(b"cost ");
    text.number(cost);
    text.end_line();
}
