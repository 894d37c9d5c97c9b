ghost use Rattle.insar_ports.specs.Calls.{Moves, call_of};
ghost use Rattle.insar_ports.specs.Feeding.{handed_of, limit_of, source_name};
ghost use Rattle.insar_ports.specs.Lines.{IsInLine};
ghost use Rattle.std.specs.Prelude.{◌≡◌, ◌+◌, ◌<◌, ◌≤◌, ◌∷◌, ◌++◌, ◌⊎◌, [], ℕ, List, All, IfErr, IfOk, MatchBool, Ok, OnOk, OnSome, length, take};
ghost use Rattle.text_lines.specs.declared.lines.LineEnd.TheVariants.{Whole, Long};

use crate::fault::LineFault;
use insar_ports::{Feed, Source};
use memchr::memchr;
use std::alloc::{AllocError, Global};

const LINE_FEED: u8 = 10;

/// How a line ended.
#[derive(Clone, Copy, Debug, PartialEq, Eq)]
pub enum LineEnd {
    /// With LF.
    Whole,
    /// With LF, and it has more bytes than are kept.
    Long,
    /// With the input.
    Cut,
}

/// The lines of a text, read one after the other. The bytes of the last one are kept.
#[derive(Drop)]
pub struct Lines {
    line: Vec<u8>,
    number: u64,
}

impl Lines {
    ghost use Rattle.text_lines.specs.LineWords.{HasNextCause, IsLineRead, IsPartTaken, kept_line, lines_read};

    /// Before the first line.
    pub fn new(alloc: Global) -> Lines
        ensures { lines_read result ≡ 0 }
    {
        Lines {
            line: Vec::new(alloc),
            number: 0,
        }
    }

    /// The number of the line that was read last, from 1; 0 before the first.
    pub fn number(&self) -> u64
        ensures { result ≡ lines_read self.now }
    {
        self.number
    }

    /// The bytes of the line that was read last, without LF.
    pub fn line(&self) -> &[u8]
        ensures { result.now ≡ kept_line self.now }
    {
        &self.line
    }

    /// Reads the next line to its end, and keeps its first `most` bytes. Lines that are too many to be counted are refused as
    /// lack of memory.
    pub fn next<S: Source>(&mut self, feed: &mut Feed<S>, most: usize) -> Result<LineEnd, LineFault>
        ensures same_source { source_name feed.new ≡ source_name feed.old }
        ensures same_limit { limit_of feed.new ≡ limit_of feed.old }
        ensures moves { Moves (call_of S.left S.faults feed.old feed.new) }
        ensures line { IfOk result (IsLineRead most (kept_line self.new) (call_of S.left S.faults feed.old feed.new)) }
        ensures number { OnOk result (lines_read self.new ≡ lines_read self.old + 1) }
        // A line that is kept whole was handed out, its LF too.
        ensures further { result ≡ Ok Whole → (handed_of feed.old < handed_of feed.new) × (handed_of feed.new ≤ limit_of feed.old) }
        ensures refused { IfErr result (HasNextCause (call_of S.left S.faults feed.old feed.new)) }
    {
        let Some(number) = self.number.checked_add(1) else {
            return Err(LineFault::Memory);
        };
        self.number = number;
        self.line.clear();
        self.take_line(feed, most)
    }

    /// Takes the bytes up to the next LF, and keeps the first `most` of them.
    fn take_line<S: Source>(
        &mut self,
        feed: &mut Feed<S>,
        most: usize,
    ) -> Result<LineEnd, LineFault>
        requires empty { kept_line self.old ≡ [] }
        ensures same_source { source_name feed.new ≡ source_name feed.old }
        ensures same_limit { limit_of feed.new ≡ limit_of feed.old }
        ensures moves { Moves (call_of S.left S.faults feed.old feed.new) }
        ensures line { IfOk result (IsLineRead most (kept_line self.new) (call_of S.left S.faults feed.old feed.new)) }
        ensures number { lines_read self.new ≡ lines_read self.old }
        ensures further { result ≡ Ok Whole → (handed_of feed.old < handed_of feed.new) × (handed_of feed.new ≤ limit_of feed.old) }
        ensures refused { IfErr result (HasNextCause (call_of S.left S.faults feed.old feed.new)) }
    {
        let start = feed.handed();
        while let Some(ended) = self.take_part(feed, most)? {
            if ended {
                return Ok(end_within(feed.handed() - start - 1, most));
            }
        }
        Ok(LineEnd::Cut)
    }

    /// Takes bytes of a line that wait, and its LF if it follows them, and says whether it did; none at the end of the input. The
    /// first `most` bytes of the line are kept.
    fn take_part<S: Source>(
        &mut self,
        feed: &mut Feed<S>,
        most: usize,
    ) -> Result<Option<bool>, LineFault>
        requires { length (kept_line self.old) ≤ most }
        ensures same_source { source_name feed.new ≡ source_name feed.old }
        ensures same_limit { limit_of feed.new ≡ limit_of feed.old }
        ensures moves { Moves (call_of S.left S.faults feed.old feed.new) }
        ensures number { lines_read self.new ≡ lines_read self.old }
        ensures room { OnOk result (length (kept_line self.new) ≤ most) }
        ensures part { IfOk result (IsPartTaken most (kept_line self.old) (kept_line self.new) (call_of S.left S.faults feed.old feed.new)) }
        ensures further { IfOk result (λ part. OnSome part ((handed_of feed.old < handed_of feed.new) × (handed_of feed.new ≤ limit_of feed.old))) }
        ensures refused { IfErr result (HasNextCause (call_of S.left S.faults feed.old feed.new)) }
    {
        if feed.peek()?.is_none() {
            return Ok(None);
        }
        let (part, ended) = before_line_feed(feed.waiting());
        self.keep(part, most)?;
        let count = part.len() + usize::from(ended);
        feed.consume(count);
        Ok(Some(ended))
    }

    /// Keeps more bytes of a line, of which the first `most` are kept.
    fn keep(&mut self, bytes: &[u8], most: usize) -> Result<(), AllocError>
        requires { length (kept_line self.old) ≤ most }
        ensures kept { OnOk result (kept_line self.new ≡ take most (kept_line self.old ++ bytes.now)) }
        ensures number { lines_read self.new ≡ lines_read self.old }
    {
        let room = most - self.line.len();
        self.line.extend_from_slice(&bytes[..bytes.len().min(room)])
    }
}

/// The bytes before the first LF, and whether there is one.
fn before_line_feed(bytes: &[u8]) -> (&[u8], bool)
    ensures inside { All IsInLine result.0.now }
    ensures front { MatchBool result.1 ((rest : List ℕ) × (bytes.now ≡ result.0.now ++ 10 ∷ rest)) (bytes.now ≡ result.0.now) }
{
    match memchr(LINE_FEED, bytes) {
        Some(count) => (&bytes[..count], true),
        None => (bytes, false),
    }
}

/// How a line of `length` bytes ended, if LF follows them.
fn end_within(length: u64, most: usize) -> LineEnd
    ensures { ((length ≤ most) × (result ≡ Whole)) ⊎ ((most < length) × (result ≡ Long)) }
{
    if length <= most as u64 {
        LineEnd::Whole
    } else {
        LineEnd::Long
    }
}
