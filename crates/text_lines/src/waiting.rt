ghost use Rattle.std.specs.Prelude.{◌≡◌, ◌≤◌, ◌<◌, ◌+◌, ◌++◌, ◌∷◌, [], length, take};
ghost use Rattle.text_lines.specs.declared.waiting.TheConstants.{BUFFER_BYTES};

/// How many bytes wait before they are put into a sink.
const BUFFER_BYTES: usize = 8192;

/// Bytes that wait to be put into a sink.
pub(crate) struct Waiting {
    bytes: [u8; BUFFER_BYTES],
    end: usize,
    ghost within: { end ≤ BUFFER_BYTES },
}

impl Waiting {
    ghost use Rattle.text_lines.specs.Views.{waiting_in};

    /// No bytes.
    pub fn new() -> Waiting
        ensures { waiting_in result ≡ [] }
    {
        Waiting {
            bytes: [0; BUFFER_BYTES],
            end: 0,
        }
    }

    /// The bytes that wait.
    pub fn bytes(&self) -> &[u8]
        ensures { result.now ≡ waiting_in self.now }
    {
        &self.bytes[..self.end]
    }

    /// How many more there is room for.
    pub fn room(&self) -> usize
        ensures { result + self.now.end ≡ BUFFER_BYTES }
    {
        BUFFER_BYTES - self.end
    }

    /// Adds bytes for which there is room.
    pub fn push(&mut self, piece: &[u8])
        requires { self.old.end + length piece.now ≤ BUFFER_BYTES }
        ensures { waiting_in self.new ≡ waiting_in self.old ++ piece.now }
    {
        let end = self.end + piece.len();
        self.bytes[self.end..end].copy_from_slice(piece);
        self.end = end;
    }

    /// Adds a byte for which there is room.
    #[inline(always)]
    pub fn push_byte(&mut self, byte: u8)
        requires { self.old.end < BUFFER_BYTES }
        ensures { waiting_in self.new ≡ waiting_in self.old ++ (byte ∷ []) }
    {
        self.bytes[self.end] = byte;
        self.end += 1;
    }

    /// Drops all that waits.
    pub fn clear(&mut self)
        ensures end { self.new.end ≡ 0 }
        ensures none { waiting_in self.new ≡ [] }
    {
        self.end = 0;
    }
}

impl Drop for Waiting {
    fn drop(self) {
        let Waiting { bytes: _, end: _ } = self;
    }
}
