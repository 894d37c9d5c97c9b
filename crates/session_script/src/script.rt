ghost use Rattle.insar_ports.specs.Calls.{call_of};
ghost use Rattle.insar_ports.specs.Feeding.{handed_of, limit_of, source_name};
ghost use Rattle.session_script.specs.Building.{FitsIn, IsSpelledLine, scripts_in, sections_in};
ghost use Rattle.session_script.specs.Parsing.{Parses, line_parser, lines_parser, script_parser};
ghost use Rattle.session_script.specs.Scripts.{meant, usual};
ghost use Rattle.session_script.specs.Sections.{AreWithinLimits, AreComplete, frame_of};
ghost use Rattle.session_script.specs.declared.fault.SessionFault.TheVariants as session_faults;
ghost use Rattle.session_script.specs.declared.session_use.SessionUse.TheVariants.{Alone};
ghost use Rattle.std.specs.Prelude.{◌≡◌, ◌<◌, [], IfErr, IfOk, OnOk};

use crate::fault::SessionFault;
use crate::frame::ScriptFrame;
use crate::line::word_of;
use crate::planes::see_byte;
use crate::sections::Sections;
use crate::session_use::SessionUse;
use crate::word::Word;
use insar_ports::{Feed, Line, Source};
use pgm_planes::InputFault;
use raster_model::{Command, Script};
use std::alloc::Global;

/// The most bytes of a line, without its line feed.
const LONGEST_LINE: usize = 64;

/// Takes the next line, which has this number.
#[tactic(auto, using(crate::proofs::CallLemmas::next_fits))]
fn read_word<S: Source>(feed: &mut Feed<S>, number: u32) -> Result<Word, SessionFault>
    ensures same_source { source_name feed.new ≡ source_name feed.old }
    ensures limit { limit_of feed.new ≡ limit_of feed.old }
    ensures taken { OnOk result (handed_of feed.old < handed_of feed.new) }
    ensures parses { Parses (λ word. word) result (call_of S.left S.faults feed.old feed.new) (line_parser number []) }
{
    let mut line = [0; LONGEST_LINE];
    let found = feed.next_line(&mut line)?;
    judged(found, &line, number)
}

/// What the line is that was put into `line`.
fn judged(found: Line, line: &[u8], number: u32) -> Result<Word, SessionFault>
    requires { FitsIn found line.now }
    ensures { IsSpelledLine number found line.now result }
{
    match found {
        Line::Whole(count) => match word_of(&line[..count]) {
            Some(word) => Ok(word),
            None => Err(SessionFault::Input(InputFault::ScriptLine(number))),
        },
        Line::Cut(_) => Err(SessionFault::Input(InputFault::NoEnd)),
        Line::Over => Err(SessionFault::Input(InputFault::ScriptLine(number))),
    }
}

/// Takes sections, which are within the limits, and the line `end`.
fn read_sections<S: Source>(
    alloc: Global,
    feed: &mut Feed<S>,
    frame: &ScriptFrame,
) -> Result<Sections, SessionFault>
    ensures same_source { source_name feed.new ≡ source_name feed.old }
    ensures limit { limit_of feed.new ≡ limit_of feed.old }
    ensures within { IfOk result (λ sections. AreWithinLimits (frame_of frame.now) (sections_in sections)) }
    ensures parses { Parses sections_in result (call_of S.left S.faults feed.old feed.new) (lines_parser (frame_of frame.now)) }
{
    let mut sections = Sections::new(alloc);
    loop {
        let word = read_word(feed, sections.lines() + 1)?;
        if let Some(fault) = sections.refusal(frame, word) {
            return Err(SessionFault::Input(fault));
        }
        match word {
            Word::End => return Ok(sections),
            _ => sections.push(alloc, word)?,
        }
    }
}

/// Takes the script part of a session.
#[tactic(auto, using(crate::proofs::ScriptAgain::meant_complete))]
pub fn read_scripts<S: Source>(
    alloc: Global,
    feed: &mut Feed<S>,
    usage: SessionUse,
    frame: &ScriptFrame,
) -> Result<Vec<Script>, SessionFault>
    ensures same_source { source_name feed.new ≡ source_name feed.old }
    ensures limit { limit_of feed.new ≡ limit_of feed.old }
    ensures within { IfOk result (λ scripts. AreComplete (frame_of frame.now) (scripts_in scripts)) }
    ensures parses { Parses scripts_in result (call_of S.left S.faults feed.old feed.new) (script_parser (frame_of frame.now) usage) }
{
    match usage {
        SessionUse::Alone => read_alone(alloc, feed, frame),
        SessionUse::BeforeReport => {
            let sections = read_sections(alloc, feed, frame)?;
            meant_scripts(alloc, sections)
        }
    }
}

/// Takes the script part of a session that stands alone, and the end of the input.
#[tactic(auto, using(crate::proofs::ScriptAgain::meant_complete, crate::proofs::ScriptAgain::usual_complete))]
fn read_alone<S: Source>(
    alloc: Global,
    feed: &mut Feed<S>,
    frame: &ScriptFrame,
) -> Result<Vec<Script>, SessionFault>
    ensures same_source { source_name feed.new ≡ source_name feed.old }
    ensures limit { limit_of feed.new ≡ limit_of feed.old }
    ensures within { IfOk result (λ scripts. AreComplete (frame_of frame.now) (scripts_in scripts)) }
    ensures parses { Parses scripts_in result (call_of S.left S.faults feed.old feed.new) (script_parser (frame_of frame.now) Alone) }
{
    let Some(_) = see_byte(feed)? else {
        return usual_scripts(alloc);
    };
    let sections = read_sections(alloc, feed, frame)?;
    let place = feed.handed();
    match see_byte(feed)? {
        None => meant_scripts(alloc, sections),
        Some(_) => Err(SessionFault::Input(InputFault::AfterEnd(place))),
    }
}

/// The scripts that sections mean.
fn meant_scripts(alloc: Global, sections: Sections) -> Result<Vec<Script>, SessionFault>
    ensures made { IfOk result (λ scripts. scripts_in scripts ≡ meant (sections_in sections)) }
    ensures starved { IfErr result (λ fault. fault ≡ session_faults.Memory) }
{
    let scripts = sections.into_scripts();
    if scripts.is_empty() {
        usual_scripts(alloc)
    } else {
        Ok(scripts)
    }
}

/// One analyst, who settles and shows.
fn usual_scripts(alloc: Global) -> Result<Vec<Script>, SessionFault>
    ensures made { IfOk result (λ scripts. scripts_in scripts ≡ usual) }
    ensures starved { IfErr result (λ fault. fault ≡ session_faults.Memory) }
{
    let commands = vec![in alloc; Command::Settle, Command::Show]?;
    Ok(vec![in alloc; Script { commands }]?)
}
