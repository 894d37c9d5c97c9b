ghost use Rattle.session_script.specs.Sections.{changes_of, line_count, sections_of, settles_of};
ghost use Rattle.session_script.specs.Sections.{frame_of, lies_in as lies_in_frame, with_command};
ghost use Rattle.raster_model.specs.Scripts.{is_change as changes_by, is_settle as settles_by};
ghost use Rattle.std.specs.Prelude.{◌≡◌, ◌+◌, ◌*◌, ◌≤◌, nat_lt, length, OnErr, OnOk};

use crate::frame::ScriptFrame;
use crate::word::Word;
use pgm_planes::InputFault;
use raster_model::{
    Command, Edit, MAX_ANALYSTS, MAX_CHANGED_TILES, MAX_COMMANDS, MAX_SETTLED_PIXELS, Rect, Script,
};
use std::alloc::{AllocError, Global};

/// The most lines of sections: for each analyst one, and those of the commands.
pub const MAX_SECTION_LINES: u32 = 32_776;

/// The sections that were read so far.
#[derive(Drop)]
pub struct Sections {
    scripts: Vec<Script>,
    lines: u32,
    settles: u32,
    changes: u32,
    ghost lines_counted: { lines ≡ line_count (sections_of scripts.items) },
    ghost settles_counted: { settles ≡ settles_of (sections_of scripts.items) },
    ghost changes_counted: { changes ≡ changes_of (sections_of scripts.items) },
}

impl Sections {
    ghost use Rattle.raster_model.specs.declared.script.Command.{Command as AnyCommand};
    ghost use Rattle.session_script.specs.declared.sections.TheConstants.{MAX_SECTION_LINES};
    ghost use Rattle.session_script.specs.declared.word.Word.TheVariants as words;
    ghost use Rattle.session_script.specs.Building.{sections_in};
    ghost use Rattle.session_script.specs.Sections.{with_command, with_word, word_broken, command_broken, limit_broken};
    ghost use Rattle.std.specs.Prelude.{◌≡◌, ◌+◌, ◌<◌, ◌≤◌, OnOk, [], ◌∷◌, ◌++◌, length};

    /// None yet.
    pub fn new(alloc: Global) -> Sections
        ensures { sections_in result ≡ [] }
    {
        Sections {
            scripts: Vec::new(alloc),
            lines: 0,
            settles: 0,
            changes: 0,
        }
    }

    /// How many lines they have.
    pub fn lines(&self) -> u32
        ensures { result ≡ line_count (sections_in self.now) }
    {
        self.lines
    }

    /// The scripts that they are.
    pub fn into_scripts(self) -> Vec<Script>
        ensures { sections_of result.items ≡ sections_in self }
    {
        self.scripts
    }

    /// What is wrong with a word in the next line. Of several refusals the first in the order line, analysts, commands,
    /// rectangle, settles and edits is reported.
    pub fn refusal(&self, frame: &ScriptFrame, word: Word) -> Option<InputFault>
        requires { line_count (sections_in self.now) ≤ MAX_SECTION_LINES }
        ensures { result ≡ word_broken (frame_of frame.now) (line_count (sections_in self.now) + 1) (sections_in self.now) word }
    {
        let line = self.lines + 1;
        match word {
            Word::Analyst if self.scripts.len() >= MAX_ANALYSTS as usize => {
                Some(InputFault::TooManyAnalysts(line))
            }
            Word::Command(command) => self.command_refusal(frame, line, command),
            _ => None,
        }
    }

    /// What is wrong with a command in this line.
    #[tactic(auto, using(crate::proofs::WithinLemmas::last_read, crate::proofs::WithinLemmas::length_is))]
    fn command_refusal(
        &self,
        frame: &ScriptFrame,
        line: u32,
        command: Command,
    ) -> Option<InputFault>
        ensures { result ≡ command_broken (frame_of frame.now) line (sections_in self.now) command }
    {
        if self.scripts.is_empty() {
            return Some(InputFault::ScriptLine(line));
        }
        let last = &self.scripts[self.scripts.len() - 1];
        if last.commands.len() >= MAX_COMMANDS as usize {
            return Some(InputFault::TooManyCommands(line));
        }
        self.limit_refusal(frame, line, command)
    }

    /// Which limit of all analysts a command exceeds in this line, or that its rectangle is not in the raster.
    fn limit_refusal(&self, frame: &ScriptFrame, line: u32, command: Command) -> Option<InputFault>
        ensures { result ≡ limit_broken (frame_of frame.now) line (sections_in self.now) command }
    {
        match command {
            Command::Change(Edit::Mask(rect) | Edit::Unmask(rect)) => {
                if !lies_in(frame, rect) {
                    return Some(InputFault::Outside(line));
                }
                passes(self.changes, frame.changed, MAX_CHANGED_TILES).then_some(
                    InputFault::EditLimit(line),
                )
            }
            Command::Settle => passes(self.settles, frame.settled, MAX_SETTLED_PIXELS).then_some(
                InputFault::SettleLimit(line),
            ),
            Command::Show => None,
        }
    }

    /// Adds a word: a section begins, or the last one goes on.
    pub fn push(&mut self, alloc: Global, word: Word) -> Result<(), AllocError>
        requires lines { line_count (sections_in self.old) ≤ MAX_SECTION_LINES }
        requires begun { (command : AnyCommand) → word ≡ words.Command command → 1 ≤ length (sections_in self.old) }
        ensures { OnOk result (sections_in self.new ≡ with_word word (sections_in self.old)) }
    {
        match word {
            Word::Analyst => self.begin(alloc),
            Word::Command(command) => self.add(command),
            Word::End => Ok(()),
        }
    }

    /// Begins the section of another analyst.
    fn begin(&mut self, alloc: Global) -> Result<(), AllocError>
        requires { line_count (sections_in self.old) ≤ MAX_SECTION_LINES }
        ensures { OnOk result (sections_in self.new ≡ sections_in self.old ++ [] ∷ []) }
    {
        let commands = Vec::new(alloc);
        self.scripts.push(Script { commands })?;
        self.lines += 1;
        Ok(())
    }

    /// Adds a command to the last section.
    #[tactic(auto, using(crate::proofs::WithinLemmas::fewer, crate::proofs::WithinLemmas::lines_added, crate::proofs::WithinLemmas::counts_added, crate::proofs::WithinLemmas::byte_is))]
    fn add(&mut self, command: Command) -> Result<(), AllocError>
        requires lines { line_count (sections_in self.old) ≤ MAX_SECTION_LINES }
        requires begun { 1 ≤ length (sections_in self.old) }
        ensures { OnOk result (sections_in self.new ≡ with_command command (sections_in self.old)) }
    {
        push_command(&mut self.scripts, command)?;
        self.lines += 1;
        self.settles += u32::from(is_settle(command));
        self.changes += u32::from(is_change(command));
        Ok(())
    }
}

/// Adds a command to the last script.
#[tactic(auto, using(crate::proofs::WithinLemmas::sections_kept, crate::proofs::WithinLemmas::sections_added))]
fn push_command(scripts: &mut Vec<Script>, command: Command) -> Result<(), AllocError>
    requires { 1 ≤ length scripts.old.items }
    ensures added { OnOk result (sections_of scripts.new.items ≡ with_command command (sections_of scripts.old.items)) }
    ensures kept { OnErr result (sections_of scripts.new.items ≡ sections_of scripts.old.items) }
{
    let last = scripts.len() - 1;
    scripts[last].commands.push(command)?;
    Ok(())
}

/// Whether a rectangle lies in the raster.
fn lies_in(frame: &ScriptFrame, rect: Rect) -> bool
    ensures { result ≡ lies_in_frame (frame_of frame.now) rect }
{
    rect.x0 <= rect.x1 && rect.x1 < frame.width && rect.y0 <= rect.y1 && rect.y1 < frame.height
}

fn is_settle(command: Command) -> bool
    ensures { result ≡ settles_by command }
{
    matches!(command, Command::Settle)
}

fn is_change(command: Command) -> bool
    ensures { result ≡ changes_by command }
{
    matches!(command, Command::Change(_))
}

/// Whether one more than `count`, times `each`, is above the limit.
fn passes(count: u32, each: u32, limit: u32) -> bool
    ensures { result ≡ nat_lt limit ((count + 1) * each) }
{
    (u64::from(count) + 1) * u64::from(each) > u64::from(limit)
}
