ghost use Rattle.std.specs.Prelude.{
  ◌≡◌,
  ◌≤◌,
  ◌<◌,
  ℕ,
  List,
  Option,
  length,
  take,
  IfOk,
  OnOk,
  OnErr,
  Ok,
};
ghost use Rattle.insar_ports.specs.Bytes.{with_end, GainsProperPrefix, HasRisen};

use crate::source::Failed;

/// A sink failed before the whole piece was written.
#[derive(Clone, Copy, Debug, PartialEq, Eq)]
pub struct WriteFault;

/// Keeps bytes that it is handed in pieces. Its count of faults starts at 0 and stays at the last
/// value of a `u64`.
pub trait Sink {
    /// The bytes that it holds, if they are told.
    ghost held: { Self → Option (List ℕ) };

    /// The count of faults.
    ghost faults: { Self → ℕ };

    /// Appends the first bytes of `piece` and says how many.
    fn put(&mut self, piece: &[u8]) -> Result<usize, Failed>
        ensures within { IfOk result (λ n. n ≤ length piece.now) }
        ensures gained { IfOk result (λ n. held self.new ≡ with_end (held self.old) (take n piece.now)) }
        ensures progress { result ≡ Ok 0 → length piece.now ≡ 0 }
        ensures failed { OnErr result (held self.new ≡ held self.old) }
        ensures counted { OnErr result (HasRisen (faults self.old) (faults self.new)) }
        ensures grows { faults self.old ≤ faults self.new };
}

/// Writes the whole piece, in as many puts as the sink asks for. It takes no memory.
pub fn put_all<K: Sink>(sink: &mut K, piece: &[u8]) -> Result<(), WriteFault>
    ensures wrote { OnOk result (K.held sink.new ≡ with_end (K.held sink.old) piece.now) }
    ensures cut { OnErr result (GainsProperPrefix (K.held sink.old) piece.now (K.held sink.new)) }
    ensures counted { OnErr result (HasRisen (K.faults sink.old) (K.faults sink.new)) }
    ensures grows { K.faults sink.old ≤ K.faults sink.new }
{
    let mut done = 0;
    while done < piece.len() {
        let Ok(count) = sink.put(&piece[done..]) else {
            return Err(WriteFault);
        };
        done += count;
    }
    Ok(())
}
