ghost use Rattle.std.specs.Prelude.{◌≡◌, ◌≤◌, ◌<◌, ◌-◌, ℕ};
ghost use Rattle.text_lines.specs.Adding.{Puts};
ghost use Rattle.text_pages.specs.Passages.{texts_from};

use crate::passages::Passages;
use insar_ports::{Failed, Sink, WriteFault};
use std::alloc::{AllocError, Global};
use text_lines::TextWriter;

/// A buffer for a part of a text, of a size that was taken before. It says whether it has the whole part.
#[derive(Drop)]
pub(crate) struct Page {
    bytes: Vec<u8>,
    faults: u64,
    pub(crate) whole: bool,
}

impl Sink for Page {
    ghost use Rattle.std.specs.Prelude.{Some};
    ghost use Rattle.text_pages.specs.Dealing.{written_on};

    ghost held = { λ page. Some (written_on page) };

    ghost faults = { λ page. page.faults };

    /// Takes a piece for which there is room, and fails at any other.
    fn put(&mut self, piece: &[u8]) -> Result<usize, Failed> {
        let room = self.bytes.capacity() - self.bytes.len();
        if piece.len() > room || self.bytes.extend_from_slice(piece).is_err() {
            self.faults = self.faults.saturating_add(1);
            return Err(Failed);
        }
        Ok(piece.len())
    }
}

impl Page {
    ghost use Rattle.std.specs.Prelude.{◌≡◌, ◌<◌, IfOk, true};
    ghost use Rattle.text_pages.specs.Dealing.{HasPassages, written_on};
    ghost use Rattle.text_pages.specs.Rooms.{room_of};

    /// An empty page for so many bytes.
    pub(crate) fn new(alloc: Global, room: u32) -> Result<Page, AllocError>
        ensures { IfOk result (λ page. room_of page ≡ room) }
    {
        Ok(Page {
            bytes: Vec::with_capacity(alloc, room as usize)?,
            faults: 0,
            whole: false,
        })
    }

    /// What was written on it.
    pub(crate) fn written(&self) -> &[u8]
        ensures { result.now ≡ written_on self.now }
    {
        &self.bytes
    }

    /// Writes the passages from `from` to before `end` on it, in place of what stood there.
    pub(crate) fn fill<P: Passages>(&mut self, passages: &P, from: u32, end: u32)
        requires order { from ≤ end }
        requires within { end ≤ P.passages passages.now }
        ensures { HasPassages (P.words passages.now) (P.known passages.now) from end self.new }
    {
        self.bytes.clear();
        self.whole = write(passages, self, from, end).is_ok();
    }
}

/// Puts the passages from `from` to before `end` into a sink.
fn write<K: Sink, P: Passages>(
    passages: &P,
    sink: &mut K,
    from: u32,
    end: u32,
) -> Result<(), WriteFault>
    requires order { from ≤ end }
    requires within { end ≤ P.passages passages.now }
    ensures put { Puts (K.held sink.old) (K.faults sink.old) (K.held sink.new) (K.faults sink.new) (texts_from (P.words passages.now) from (end - from)) result }
    ensures known { (i : ℕ) → from ≤ i → i < end → P.known passages.now i }
{
    let mut text = TextWriter::new(sink);
    passages.add(&mut text, from, end);
    text.finish()
}
