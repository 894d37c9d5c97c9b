ghost use Rattle.std.specs.Prelude.{◌≡◌, ◌≤◌, ◌<◌, ◌+◌, ◌++◌, ◌∷◌, [], length, codes, OnOk, OnErr, true, false};
ghost use Rattle.std.specs.Fmt.{signed_decimal};
ghost use Rattle.insar_ports.specs.Bytes.{GainsProperPrefix, HasRisen, with_end};
ghost use Rattle.text_lines.specs.declared.waiting.TheConstants.{BUFFER_BYTES};

use crate::waiting::Waiting;
use insar_ports::{Sink, WriteFault, put_all};
use itoa::{Buffer, Integer};

/// Writes text into a sink, through a buffer of its own. It keeps its fault: after one it writes nothing more, and
/// `finish` returns it. It takes no memory. What was added reaches the sink only with `finish`.
pub struct TextWriter<'a, K> {
    sink: &'a mut K,
    waiting: Waiting,
    sound: bool,
}

impl<'a, K: Sink> TextWriter<'a, K> {
    ghost use Rattle.text_lines.specs.Views.{fresh, view_of, waiting_in};
    ghost use Rattle.text_lines.specs.Adding.{Adds};

    /// A writer into `sink`.
    pub fn new(sink: &'a mut K) -> TextWriter<'a, K>
        ensures { view_of K.held K.faults result ≡ fresh sink.entry.ghost_name (K.held sink.old) (K.faults sink.old) }
    {
        TextWriter {
            sink,
            waiting: Waiting::new(),
            sound: true,
        }
    }

    /// Adds bytes.
    pub fn bytes(&mut self, piece: &[u8])
        ensures { Adds (view_of K.held K.faults self.old) (view_of K.held K.faults self.new) piece.now }
    {
        if piece.len() <= self.waiting.room() {
            self.keep(piece);
        } else {
            self.pass(piece);
        }
    }

    /// Adds a byte.
    pub fn byte(&mut self, byte: u8)
        ensures { Adds (view_of K.held K.faults self.old) (view_of K.held K.faults self.new) (byte ∷ []) }
    {
        if self.waiting.room() > 0 {
            self.waiting.push_byte(byte);
        } else {
            self.bytes(&[byte]);
        }
    }

    /// Adds a number in decimal, with a minus sign if it is below 0.
    pub fn number<I: Integer>(&mut self, number: I)
        ensures { Adds (view_of K.held K.faults self.old) (view_of K.held K.faults self.new) (I.text number) }
    {
        let mut digits = Buffer::new();
        self.bytes(digits.format(number).as_bytes());
    }

    /// Adds a number of 64 bits in decimal, with a minus sign if it is below 0. Most have one digit, so that is one byte.
    pub fn signed(&mut self, number: i64)
        ensures { Adds (view_of K.held K.faults self.old) (view_of K.held K.faults self.new) (signed_decimal number) }
    {
        if 0 <= number && number < 10 {
            self.byte(b'0' + number as u8);
        } else {
            self.number(number);
        }
    }

    /// Adds a space.
    pub fn space(&mut self)
        ensures { Adds (view_of K.held K.faults self.old) (view_of K.held K.faults self.new) (codes " ") }
    {
        self.byte(b' ');
    }

    /// Ends a line.
    pub fn end_line(&mut self)
        ensures { Adds (view_of K.held K.faults self.old) (view_of K.held K.faults self.new) (codes "\n") }
    {
        self.byte(b'\n');
    }

    /// Puts what waits, and says whether the sink has all that was added.
    pub fn finish(&mut self) -> Result<(), WriteFault>
        ensures adds { Adds (view_of K.held K.faults self.old) (view_of K.held K.faults self.new) [] }
        ensures none { (view_of K.held K.faults self.new).waiting ≡ [] }
        ensures whole { OnOk result ((view_of K.held K.faults self.new).sound ≡ true) }
        ensures cut { OnErr result ((view_of K.held K.faults self.new).sound ≡ false) }
    {
        self.empty();
        self.sound_now()
    }

    /// Whether no fault came so far.
    pub fn is_sound(&self) -> bool
        ensures { result ≡ (view_of K.held K.faults self.now).sound }
    {
        self.sound
    }

    /// The fault, if one came.
    pub fn sound_now(&self) -> Result<(), WriteFault>
        ensures whole { OnOk result ((view_of K.held K.faults self.now).sound ≡ true) }
        ensures cut { OnErr result ((view_of K.held K.faults self.now).sound ≡ false) }
    {
        if self.sound { Ok(()) } else { Err(WriteFault) }
    }

    /// Adds bytes for which there is no room.
    fn pass(&mut self, piece: &[u8])
        ensures { Adds (view_of K.held K.faults self.old) (view_of K.held K.faults self.new) piece.now }
    {
        self.empty();
        if piece.len() <= self.waiting.room() {
            self.keep(piece);
        } else {
            self.straight(piece);
        }
    }

    /// Keeps bytes that fit.
    fn keep(&mut self, piece: &[u8])
        requires { self.old.waiting.end + length piece.now ≤ BUFFER_BYTES }
        ensures { Adds (view_of K.held K.faults self.old) (view_of K.held K.faults self.new) piece.now }
    {
        self.waiting.push(piece);
    }

    /// Puts all that waits; after a fault it is dropped.
    fn empty(&mut self)
        ensures adds { Adds (view_of K.held K.faults self.old) (view_of K.held K.faults self.new) [] }
        ensures none { waiting_in self.new.waiting ≡ [] }
    {
        if self.sound {
            self.put_waiting();
        } else {
            self.waiting.clear();
        }
    }

    /// Puts all that waits, where no fault came.
    fn put_waiting(&mut self)
        requires { self.old.sound ≡ true }
        ensures adds { Adds (view_of K.held K.faults self.old) (view_of K.held K.faults self.new) [] }
        ensures none { waiting_in self.new.waiting ≡ [] }
    {
        self.sound = put_whole(self.sink, self.waiting.bytes());
        self.waiting.clear();
    }

    /// Puts bytes before which none wait.
    fn straight(&mut self, piece: &[u8])
        requires { waiting_in self.old.waiting ≡ [] }
        ensures { Adds (view_of K.held K.faults self.old) (view_of K.held K.faults self.new) piece.now }
    {
        if self.sound {
            self.sound = put_whole(self.sink, piece);
        }
    }
}

/// Puts a piece, and says whether the sink has all of it.
fn put_whole<K: Sink>(sink: &mut K, piece: &[u8]) -> bool
    ensures wrote { result ≡ true → K.held sink.new ≡ with_end (K.held sink.old) piece.now }
    ensures cut { result ≡ false → GainsProperPrefix (K.held sink.old) piece.now (K.held sink.new) }
    ensures counted { result ≡ false → HasRisen (K.faults sink.old) (K.faults sink.new) }
    ensures grows { K.faults sink.old ≤ K.faults sink.new }
{
    put_all(sink, piece).is_ok()
}

impl<K> Drop for TextWriter<'_, K> {
    fn drop(self)
        ensures { self.exit.0.now ≡ self.entry.sink.now }
    {
        let TextWriter {
            sink: _,
            waiting: _,
            sound: _,
        } = self;
    }
}
