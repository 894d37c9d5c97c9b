ghost use Rattle.std.specs.Prelude.{
  ◌≡◌,
  ◌≤◌,
  ◌<◌,
  ℕ,
  List,
  Option,
  length,
  take,
  IfOk,
  OnErr,
  Ok,
};
ghost use Rattle.insar_ports.specs.Bytes.{with_front, IsAtEnd, HasRisen};

/// A call of a port failed, and its count of faults rose.
#[derive(Clone, Copy, Debug, PartialEq, Eq)]
pub struct Failed;

/// Gives bytes in pieces. Its count of faults starts at 0 and stays at the last value of a `u64`.
pub trait Source {
    /// The bytes that are left, if they are told.
    ghost left: { Self → Option (List ℕ) };

    /// The count of faults.
    ghost faults: { Self → ℕ };

    /// Puts the next bytes at the front of `into` and says how many. 0 for an `into` that is not
    /// empty is the end.
    fn take(&mut self, into: &mut [u8]) -> Result<usize, Failed>
        ensures within { IfOk result (λ n. n ≤ length into.new) }
        ensures gave { IfOk result (λ n. left self.old ≡ with_front (take n into.new) (left self.new)) }
        ensures ended { result ≡ Ok 0 → 0 < length into.old → IsAtEnd (left self.new) }
        ensures failed { OnErr result (left self.new ≡ left self.old) }
        ensures counted { OnErr result (HasRisen (faults self.old) (faults self.new)) }
        ensures grows { faults self.old ≤ faults self.new };
}
