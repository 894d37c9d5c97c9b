ghost use Rattle.std.specs.Prelude.{◌≡◌, ◌≤◌, None, Ok, OnOk, OnErr, IfOk, length};
ghost use Rattle.std.specs.Io.KnownBytes.{ReadConsumes, WriteAppends};
ghost use Rattle.insar_ports.specs.Adapters.{
  one_more,
  read_faults,
  reader_of,
  write_faults,
  writer_of,
};

use crate::sink::Sink;
use crate::source::{Failed, Source};
use std::io::{Read, Write};

/// A source over one of std's readers. It does not tell its bytes, whatever its reader tells. Each
/// error of the reader is a fault, an interrupted read too.
#[derive(Drop)]
pub struct StdSource<R> {
    reader: R,
    faults: u64,
}

impl<R: Read> StdSource<R> {
    /// A source of what `reader` gives.
    pub fn new(reader: R) -> StdSource<R>
        ensures reader { reader_of result ≡ reader }
        ensures faults { read_faults result ≡ 0 }
    {
        StdSource { reader, faults: 0 }
    }
}

impl<R: Read> Source for StdSource<R> {
    ghost left = { λ _. None };

    ghost faults = { λ source. read_faults source };

    /// Reads once.
    fn take(&mut self, into: &mut [u8]) -> Result<usize, Failed>
        ensures within { IfOk result (λ n. n ≤ length into.new) }
        ensures read { ReadConsumes (R.remaining (reader_of self.old)) (R.remaining (reader_of self.new)) result into.new }
        ensures counted { OnErr result (read_faults self.new ≡ one_more (read_faults self.old)) }
        ensures uncounted { OnOk result (read_faults self.new ≡ read_faults self.old) }
        ensures grows { read_faults self.old ≤ read_faults self.new }
    {
        let Ok(count) = self.reader.read(into) else {
            self.faults = self.faults.saturating_add(1);
            return Err(Failed);
        };
        Ok(count)
    }
}

/// A sink over one of std's writers. It does not tell its bytes, whatever its writer tells. Each error
/// of the writer is a fault, and so is a write that takes nothing of a piece that is not empty.
#[derive(Drop)]
pub struct StdSink<W> {
    writer: W,
    faults: u64,
}

impl<W: Write> StdSink<W> {
    /// A sink that hands its bytes to `writer`.
    pub fn new(writer: W) -> StdSink<W>
        ensures writer { writer_of result ≡ writer }
        ensures faults { write_faults result ≡ 0 }
    {
        StdSink { writer, faults: 0 }
    }
}

impl<W: Write> Sink for StdSink<W> {
    ghost held = { λ _. None };

    ghost faults = { λ sink. write_faults sink };

    /// Writes once.
    fn put(&mut self, piece: &[u8]) -> Result<usize, Failed>
        ensures within { IfOk result (λ n. n ≤ length piece.now) }
        ensures wrote { WriteAppends (W.contents (writer_of self.old)) (W.contents (writer_of self.new)) result piece.now }
        ensures progress { result ≡ Ok 0 → length piece.now ≡ 0 }
        ensures counted { OnErr result (write_faults self.new ≡ one_more (write_faults self.old)) }
        ensures uncounted { OnOk result (write_faults self.new ≡ write_faults self.old) }
        ensures grows { write_faults self.old ≤ write_faults self.new }
    {
        match self.writer.write(piece) {
            Ok(count) if count > 0 || piece.is_empty() => Ok(count),
            _ => {
                self.faults = self.faults.saturating_add(1);
                Err(Failed)
            }
        }
    }
}
