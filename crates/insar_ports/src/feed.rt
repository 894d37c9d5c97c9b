ghost use Rattle.std.specs.Prelude.{
  ◌≡◌,
  ◌≤◌,
  ◌<◌,
  ◌+◌,
  ◌-◌,
  ◌^◌,
  ◌∷◌,
  ◌++◌,
  [],
  ℕ,
  List,
  min,
  length,
  take,
  vec_len,
  IfOk,
  IfSome,
  OnErr,
  OnSome,
  Ok,
  Err,
  Some,
  None,
  true,
  false,
};

use crate::buffer::zeroes;
use crate::source::Source;
use std::alloc::{AllocError, Global};

/// How many bytes a feed asks of its source at once.
const BUFFER_BYTES: usize = 65_536;

const LINE_FEED: u8 = 10;

/// Why no byte comes.
#[derive(Clone, Copy, Debug, PartialEq, Eq)]
pub enum FeedFault {
    /// The source failed and counted a fault.
    ReadFault,
    /// As many bytes as the limit says were handed out, and another follows.
    TooLong,
}

/// What `Feed::next_line` met.
#[derive(Clone, Copy, Debug, PartialEq, Eq)]
pub enum Line {
    /// This many bytes and then a line feed, which is not kept.
    Whole(usize),
    /// This many bytes and then the end of the input.
    Cut(usize),
    /// As many bytes as there is room for, and then another that is not a line feed. That one stays.
    Over,
}

/// What a feed keeps bytes in.
pub trait Buffer {
    /// How many bytes it has room for.
    ghost size: { Self → ℕ };
}

impl Buffer for Vec<u8> {
    ghost size = { λ bytes. vec_len bytes };
}

/// Hands out the bytes of a source one by one or many at once, up to a limit. It takes from the source
/// only when every byte that the source gave was handed out.
// `B` is always `Vec<u8>`: with `Vec<u8>` as a field's own type a dropped feed would tell nothing
// of its source.
pub struct Feed<'a, S, B: Buffer = Vec<u8>> {
    source: &'a mut S,
    buffer: B,
    start: usize,
    /// The end of those bytes in the buffer that the limit lets out.
    stop: usize,
    end: usize,
    /// How many bytes were handed out before those in the buffer.
    before: u64,
    limit: u64,
    ghost ordered: { start ≤ stop },
    ghost limited: { stop ≡ min end (limit - before) },
    ghost counted: { before ≤ limit },
    ghost bounded: { limit < 2 ^ 64 },
    ghost stored: { end ≤ B.size buffer },
    ghost roomy: { 0 < B.size buffer },
}

impl<'a, S: Source> Feed<'a, S> {
    ghost use Rattle.insar_ports.specs.Bytes.{
      after_first,
      with_front,
      BeginsWith,
      HasMore,
      HasRisen,
      IsAtEnd,
    };
    ghost use Rattle.insar_ports.specs.Lines.{asked_by, bytes_of, IsNextLine, IsPartOfLine};
    ghost use Rattle.insar_ports.specs.Feeding.{
      faults_of,
      handed_of,
      left_of,
      limit_of,
      pending_of,
      ready_of,
      source_name,
      source_of,
      waiting_of,
      IsReady,
    };

    /// A feed of the bytes that `source` has left, of which at most `limit` are handed out. If memory
    /// is short, nothing is said about the source. What waits in the feed is lost with it.
    pub fn new(alloc: Global, source: &'a mut S, limit: u64) -> Result<Feed<'a, S>, AllocError>
        ensures same_source { IfOk result (λ feed. source_name feed ≡ source.entry.ghost_name) }
        ensures source { IfOk result (λ feed. source_of feed ≡ source.old) }
        ensures left { IfOk result (λ feed. left_of S.left feed ≡ S.left source.old) }
        ensures faults { IfOk result (λ feed. faults_of S.faults feed ≡ S.faults source.old) }
        ensures handed { IfOk result (λ feed. handed_of feed ≡ 0) }
        ensures limit { IfOk result (λ feed. limit_of feed ≡ limit) }
    {
        let buffer = zeroes(alloc, BUFFER_BYTES)?;
        Ok(Feed::over(source, buffer, limit))
    }

    fn over(source: &'a mut S, buffer: Vec<u8>, limit: u64) -> Feed<'a, S>
        requires { 0 < vec_len buffer }
        ensures same_source { result.source.ghost_name ≡ source.entry.ghost_name }
        ensures source { result.source.now ≡ source.old }
        ensures start { result.start ≡ 0 }
        ensures end { result.end ≡ 0 }
        ensures before { result.before ≡ 0 }
        ensures limit { result.limit ≡ limit }
    {
        Feed {
            source,
            buffer,
            start: 0,
            stop: 0,
            end: 0,
            before: 0,
            limit,
        }
    }

    /// How many bytes were handed out.
    pub fn handed(&self) -> u64
        ensures { result ≡ handed_of self.now }
    {
        self.before + self.start as u64
    }

    /// The next byte, which stays where it is; `None` at the end of the input.
    pub fn peek(&mut self) -> Result<Option<u8>, FeedFault>
        ensures same_source { source_name self.new ≡ source_name self.old }
        ensures left { left_of S.left self.new ≡ left_of S.left self.old }
        ensures handed { handed_of self.new ≡ handed_of self.old }
        ensures limit { limit_of self.new ≡ limit_of self.old }
        ensures grows { faults_of S.faults self.old ≤ faults_of S.faults self.new }
        ensures byte { IfOk result (λ got. IfSome got (λ byte. BeginsWith byte (left_of S.left self.old))) }
        ensures allowed { IfOk result (λ got. IfSome got (λ _. handed_of self.old < limit_of self.old)) }
        ensures ready { IfOk result (λ got. OnSome got (IsReady self.new)) }
        ensures ended { result ≡ Ok None → IsAtEnd (left_of S.left self.old) }
        ensures read_fault { result ≡ Err FeedFault.ReadFault → HasRisen (faults_of S.faults self.old) (faults_of S.faults self.new) }
        ensures drained { result ≡ Err FeedFault.ReadFault → pending_of self.new ≡ [] }
        ensures too_long { result ≡ Err FeedFault.TooLong → handed_of self.old ≡ limit_of self.old }
        ensures more { result ≡ Err FeedFault.TooLong → HasMore (left_of S.left self.old) }
        ensures waiting { IfOk result (λ got. IfSome got (λ byte. waiting_of self.new ≡ Some byte)) }
    {
        if self.start == self.stop && !self.fill()? {
            return Ok(None);
        }
        Ok(Some(self.buffer[self.start]))
    }

    /// The bytes that `consume` may hand out: those in the buffer, up to the limit. They are
    /// none before the first look at the source and once all were handed out; if `peek` shows a byte
    /// they begin with it.
    pub fn waiting(&self) -> &[u8]
        ensures value { result.now ≡ ready_of self.now }
        ensures front { IfSome (left_of S.left self.now) (λ bytes. (rest : List ℕ) × (bytes ≡ result.now ++ rest)) }
        ensures some { IsReady self.now → 0 < length result.now }
        ensures allowed { handed_of self.now + length result.now ≤ limit_of self.now }
    {
        &self.buffer[self.start..self.stop]
    }

    /// Hands out the first `count` of the bytes that wait.
    pub fn consume(&mut self, count: usize)
        requires { count ≤ length (ready_of self.old) }
        ensures same_source { source_name self.new ≡ source_name self.old }
        ensures source { source_of self.new ≡ source_of self.old }
        ensures left { left_of S.left self.old ≡ with_front (take count (ready_of self.old)) (left_of S.left self.new) }
        ensures waiting { ready_of self.old ≡ take count (ready_of self.old) ++ ready_of self.new }
        ensures handed { handed_of self.new ≡ handed_of self.old + count }
        ensures limit { limit_of self.new ≡ limit_of self.old }
    {
        self.start += count;
    }

    /// Hands out the next byte; `None` at the end of the input.
    pub fn next(&mut self) -> Result<Option<u8>, FeedFault>
        ensures same_source { source_name self.new ≡ source_name self.old }
        ensures limit { limit_of self.new ≡ limit_of self.old }
        ensures grows { faults_of S.faults self.old ≤ faults_of S.faults self.new }
        ensures byte { IfOk result (λ got. IfSome got (λ byte. left_of S.left self.old ≡ with_front (byte ∷ []) (left_of S.left self.new))) }
        ensures handed { IfOk result (λ got. IfSome got (λ _. handed_of self.new ≡ handed_of self.old + 1)) }
        ensures allowed { IfOk result (λ got. IfSome got (λ _. handed_of self.old < limit_of self.old)) }
        ensures ended { result ≡ Ok None → IsAtEnd (left_of S.left self.old) }
        ensures left_at_end { result ≡ Ok None → left_of S.left self.new ≡ left_of S.left self.old }
        ensures handed_at_end { result ≡ Ok None → handed_of self.new ≡ handed_of self.old }
        ensures left_at_fault { OnErr result (left_of S.left self.new ≡ left_of S.left self.old) }
        ensures handed_at_fault { OnErr result (handed_of self.new ≡ handed_of self.old) }
        ensures read_fault { result ≡ Err FeedFault.ReadFault → HasRisen (faults_of S.faults self.old) (faults_of S.faults self.new) }
        ensures drained { result ≡ Err FeedFault.ReadFault → pending_of self.new ≡ [] }
        ensures too_long { result ≡ Err FeedFault.TooLong → handed_of self.old ≡ limit_of self.old }
        ensures more { result ≡ Err FeedFault.TooLong → HasMore (left_of S.left self.old) }
        ensures waited { IfSome (waiting_of self.old) (λ byte. result ≡ Ok (Some byte)) }
    {
        if self.start == self.stop && !self.fill()? {
            return Ok(None);
        }
        let byte = self.buffer[self.start];
        self.start += 1;
        Ok(Some(byte))
    }

    /// From here on, at most `limit` bytes in all are handed out.
    pub fn set_limit(&mut self, limit: u64)
        requires { handed_of self.old ≤ limit }
        ensures same_source { source_name self.new ≡ source_name self.old }
        ensures source { source_of self.new ≡ source_of self.old }
        ensures left { left_of S.left self.new ≡ left_of S.left self.old }
        ensures faults { faults_of S.faults self.new ≡ faults_of S.faults self.old }
        ensures handed { handed_of self.new ≡ handed_of self.old }
        ensures limit { limit_of self.new ≡ limit }
    {
        self.limit = limit;
        self.stop = (self.end as u64).min(limit - self.before) as usize;
    }

    /// Hands out a line, without its line feed, into the front of `into`. After a fault the bytes that
    /// were taken are gone.
    pub fn next_line(&mut self, into: &mut [u8]) -> Result<Line, FeedFault>
        ensures same_source { source_name self.new ≡ source_name self.old }
        ensures limit { limit_of self.new ≡ limit_of self.old }
        ensures grows { faults_of S.faults self.old ≤ faults_of S.faults self.new }
        ensures line { IfOk result (λ line. IsNextLine line into.new (left_of S.left self.old) (left_of S.left self.new)) }
        ensures handed { IfOk result (λ line. handed_of self.new ≡ handed_of self.old + bytes_of line into.new) }
        ensures allowed { IfOk result (λ line. handed_of self.old + asked_by line into.new ≤ limit_of self.old) }
        ensures taken { OnErr result (IsPartOfLine into.new (left_of S.left self.old) (left_of S.left self.new) (handed_of self.old) (handed_of self.new)) }
        ensures read_fault { result ≡ Err FeedFault.ReadFault → HasRisen (faults_of S.faults self.old) (faults_of S.faults self.new) }
        ensures drained { result ≡ Err FeedFault.ReadFault → pending_of self.new ≡ [] }
        ensures too_long { result ≡ Err FeedFault.TooLong → handed_of self.new ≡ limit_of self.new }
        ensures more { result ≡ Err FeedFault.TooLong → HasMore (left_of S.left self.new) }
    {
        let mut count = 0;
        loop {
            let Some(byte) = self.peek()? else {
                return Ok(Line::Cut(count));
            };
            if byte == LINE_FEED {
                self.step();
                return Ok(Line::Whole(count));
            }
            if count == into.len() {
                return Ok(Line::Over);
            }
            self.step();
            into[count] = byte;
            count += 1;
        }
    }

    /// Hands out the byte that waits.
    fn step(&mut self)
        requires { IsReady self.old }
        ensures same_source { source_name self.new ≡ source_name self.old }
        ensures source { source_of self.new ≡ source_of self.old }
        ensures left { left_of S.left self.new ≡ after_first (left_of S.left self.old) }
        ensures handed { handed_of self.new ≡ handed_of self.old + 1 }
        ensures limit { limit_of self.new ≡ limit_of self.old }
    {
        self.start += 1;
    }

    /// Whether another byte is in the buffer and may be handed out. If the buffer is empty it
    /// asks the source.
    fn fill(&mut self) -> Result<bool, FeedFault>
        ensures same_source { source_name self.new ≡ source_name self.old }
        ensures left { left_of S.left self.new ≡ left_of S.left self.old }
        ensures handed { handed_of self.new ≡ handed_of self.old }
        ensures limit { limit_of self.new ≡ limit_of self.old }
        ensures grows { faults_of S.faults self.old ≤ faults_of S.faults self.new }
        ensures ready { result ≡ Ok true → IsReady self.new }
        ensures ended { result ≡ Ok false → IsAtEnd (left_of S.left self.old) }
        ensures read_fault { result ≡ Err FeedFault.ReadFault → HasRisen (faults_of S.faults self.old) (faults_of S.faults self.new) }
        ensures drained { result ≡ Err FeedFault.ReadFault → pending_of self.new ≡ [] }
        ensures too_long { result ≡ Err FeedFault.TooLong → handed_of self.old ≡ limit_of self.old }
        ensures more { result ≡ Err FeedFault.TooLong → HasMore (left_of S.left self.old) }
    {
        if self.start == self.end {
            self.before += self.end as u64;
            self.start = 0;
            self.end = 0;
            self.stop = 0;
            let Ok(count) = self.source.take(&mut self.buffer) else {
                return Err(FeedFault::ReadFault);
            };
            if count == 0 {
                return Ok(false);
            }
            self.end = count;
            self.stop = (count as u64).min(self.limit - self.before) as usize;
        }
        if self.start == self.stop {
            return Err(FeedFault::TooLong);
        }
        Ok(true)
    }
}

impl<S, B: Buffer + Drop> Drop for Feed<'_, S, B> {
    fn drop(self)
        ensures { self.exit.0.now ≡ self.entry.source.now }
    {
        let Feed {
            source: _,
            buffer: _,
            start: _,
            stop: _,
            end: _,
            before: _,
            limit: _,
        } = self;
    }
}
