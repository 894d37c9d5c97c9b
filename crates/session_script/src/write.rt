ghost use Rattle.insar_ports.specs.Bytes.{GainsProperPrefix, HasRisen, with_end};
ghost use Rattle.raster_model.specs.Limits.{max_tiled_side};
ghost use Rattle.session_script.specs.Sections.{sections_of};
ghost use Rattle.session_script.specs.Sessions.{session_of};
ghost use Rattle.session_script.specs.Text.{command_line, command_text, line_text, mask_row_text, mask_text, scripts_text, section_text, session_text, word_text};
ghost use Rattle.std.specs.Prelude.{◌≡◌, ◌<◌, ◌≤◌, ◌++◌, OnErr, OnOk, flat_map, length, take};
ghost use Rattle.text_lines.specs.Adding.{Adds};
ghost use Rattle.text_lines.specs.Text.{rect_text, texts_below};
ghost use Rattle.text_lines.specs.Views.{view_of};

use crate::line::{ANALYST, END, MASK, SETTLE, SHOW, UNMASK};
use crate::word::Word;
use insar_ports::{Sink, WriteFault};
use pgm_planes::{add_header, add_plane};
use raster_model::{Command, Edit, MAX_TILED_SIDE, Mask, Script, Session};
use text_lines::{TextWriter, add_rect};

/// The most pixels of a row.
const MAX_WIDTH: usize = MAX_TILED_SIDE as usize;

/// Writes a session: the planes of phase, weights and mask in raw form, the mask with the maxval 1, then for each analyst
/// the line `analyst` and the commands, and the line `end`. It takes no memory.
pub fn write_session<K: Sink>(session: &Session, sink: &mut K) -> Result<(), WriteFault>
    ensures written { OnOk result (K.held sink.new ≡ with_end (K.held sink.old) (session_text (session_of session.now))) }
    ensures cut { OnErr result (GainsProperPrefix (K.held sink.old) (session_text (session_of session.now)) (K.held sink.new)) }
    ensures fault { OnErr result (HasRisen (K.faults sink.old) (K.faults sink.new)) }
    ensures grows { K.faults sink.old ≤ K.faults sink.new }
{
    let mut text = TextWriter::new(sink);
    add_session(&mut text, session);
    text.finish()
}

fn add_session<K: Sink>(text: &mut TextWriter<K>, session: &Session)
    ensures { Adds (view_of K.held K.faults text.old) (view_of K.held K.faults text.new) (session_text (session_of session.now)) }
{
    add_plane(text, &session.scene.phase);
    add_plane(text, &session.scene.weights);
    add_mask(text, &session.first_mask);
    add_scripts(text, &session.scripts);
}

/// Adds a mask as a raw plane.
fn add_mask<K: Sink>(text: &mut TextWriter<K>, mask: &Mask)
    requires { mask.now.width ≤ max_tiled_side }
    ensures { Adds (view_of K.held K.faults text.old) (view_of K.held K.faults text.new) (mask_text mask.now) }
{
    add_header(text, mask.width(), mask.height(), 1);
    add_rows(text, mask);
}

/// Adds the samples of a mask, row by row.
#[tactic(auto, using(text_lines::proofs::AddLemmas::adds_nothing), unfolding(text_lines::specs::Text::texts_below))]
fn add_rows<K: Sink>(text: &mut TextWriter<K>, mask: &Mask)
    requires { mask.now.width ≤ max_tiled_side }
    ensures { Adds (view_of K.held K.faults text.old) (view_of K.held K.faults text.new) (texts_below mask.now.height (mask_row_text mask.now)) }
{
    let mut row = [0; MAX_WIDTH];
    for y in 0..mask.height() {
        fill_row(mask, y, &mut row);
        text.bytes(&row[..mask.width() as usize]);
    }
}

/// Puts 0 for a masked pixel and 1 for an open one into the front of `row`.
#[tactic(auto, unfolding(text_lines::specs::Text::texts_below))]
fn fill_row(mask: &Mask, y: u32, row: &mut [u8])
    requires along { y < mask.now.height }
    requires room { mask.now.width ≤ length row.old }
    ensures same { length row.new ≡ length row.old }
    ensures front { take mask.now.width row.new ≡ mask_row_text mask.now y }
{
    for x in 0..mask.width() {
        row[x as usize] = u8::from(mask.is_open(x, y));
    }
}

/// Adds the sections of scripts and the line `end`.
fn add_scripts<K: Sink>(text: &mut TextWriter<K>, scripts: &[Script])
    ensures { Adds (view_of K.held K.faults text.old) (view_of K.held K.faults text.new) (scripts_text (sections_of scripts.now)) }
{
    add_sections(text, scripts);
    add_line(text, Word::End);
}

fn add_sections<K: Sink>(text: &mut TextWriter<K>, scripts: &[Script])
    ensures { Adds (view_of K.held K.faults text.old) (view_of K.held K.faults text.new) (flat_map section_text (sections_of scripts.now)) }
{
    for script in scripts {
        add_section(text, &script.commands);
    }
}

/// Adds the line with which a section begins, and the commands.
fn add_section<K: Sink>(text: &mut TextWriter<K>, commands: &[Command])
    ensures { Adds (view_of K.held K.faults text.old) (view_of K.held K.faults text.new) (section_text commands.now) }
{
    add_line(text, Word::Analyst);
    add_commands(text, commands);
}

fn add_commands<K: Sink>(text: &mut TextWriter<K>, commands: &[Command])
    ensures { Adds (view_of K.held K.faults text.old) (view_of K.held K.faults text.new) (flat_map command_line commands.now) }
{
    for command in commands {
        add_line(text, Word::Command(*command));
    }
}

/// Adds a line and its line feed.
fn add_line<K: Sink>(text: &mut TextWriter<K>, word: Word)
    ensures { Adds (view_of K.held K.faults text.old) (view_of K.held K.faults text.new) (line_text word) }
{
    add_word(text, word);
    text.end_line();
}

fn add_word<K: Sink>(text: &mut TextWriter<K>, word: Word)
    ensures { Adds (view_of K.held K.faults text.old) (view_of K.held K.faults text.new) (word_text word) }
{
    match word {
        Word::Analyst => text.bytes(ANALYST),
        Word::End => text.bytes(END),
        Word::Command(command) => add_command(text, command),
    }
}

fn add_command<K: Sink>(text: &mut TextWriter<K>, command: Command)
    ensures { Adds (view_of K.held K.faults text.old) (view_of K.held K.faults text.new) (command_text command) }
{
    match command {
        Command::Change(Edit::Mask(rect)) => add_rect(text, MASK, rect),
        Command::Change(Edit::Unmask(rect)) => add_rect(text, UNMASK, rect),
        Command::Settle => text.bytes(SETTLE),
        Command::Show => text.bytes(SHOW),
    }
}
