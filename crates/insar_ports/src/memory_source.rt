ghost use Rattle.std.specs.Prelude.{◌≤◌, vec_len};

use crate::plan::Plan;
use crate::source::{Failed, Source};

/// A source over bytes in memory. It tells its bytes, gives them in pieces, and fails in the calls
/// that are named.
#[derive(Drop)]
pub struct MemorySource {
    bytes: Vec<u8>,
    start: usize,
    plan: Plan,
    ghost within: { start ≤ vec_len bytes },
    ghost positive: { 1 ≤ plan.piece },
}

impl MemorySource {
    ghost use Rattle.std.specs.Prelude.{◌≡◌};
    ghost use Rattle.insar_ports.specs.Memory.{bytes_left, source_plan};
    ghost use Rattle.insar_ports.specs.Plans.{fresh_plan};

    /// A source of `bytes` that gives at most `piece` of them in a call. The calls whose numbers, from
    /// 1, are in `failing` fail and count a fault. The number of a call stays at the last `u32`.
    pub fn new(bytes: Vec<u8>, piece: usize, failing: Vec<u32>) -> MemorySource
        requires { 1 ≤ piece }
        ensures left { bytes_left result ≡ bytes.items }
        ensures plan { source_plan result ≡ fresh_plan piece failing }
    {
        MemorySource {
            bytes,
            start: 0,
            plan: Plan::new(piece, failing),
        }
    }
}

impl Source for MemorySource {
    ghost use Rattle.std.specs.Prelude.{◌≡◌, ◌<◌, ◌++◌, [], Some, length, take, min, IfOk, OnErr, OnOk, Ok};
    ghost use Rattle.insar_ports.specs.Memory.{bytes_left, source_plan};
    ghost use Rattle.insar_ports.specs.Plans.{after_call, after_fault, WillFail};

    ghost left = { λ source. Some (bytes_left source) };

    ghost faults = { λ source. (source_plan source).faults };

    /// Gives as many bytes as `into` and a piece have room for, or all that are left.
    fn take(&mut self, into: &mut [u8]) -> Result<usize, Failed>
        ensures fails { OnErr result (WillFail (source_plan self.old)) }
        ensures works { OnOk result (¬ WillFail (source_plan self.old)) }
        ensures within { IfOk result (λ n. n ≤ length into.new) }
        ensures count { IfOk result (λ n. n ≡ min (min (length into.new) (source_plan self.old).piece) (length (bytes_left self.old))) }
        ensures gave { IfOk result (λ n. bytes_left self.old ≡ take n into.new ++ bytes_left self.new) }
        ensures ended { result ≡ Ok 0 → 0 < length into.old → bytes_left self.new ≡ [] }
        ensures failed { OnErr result (bytes_left self.new ≡ bytes_left self.old) }
        ensures after_ok { OnOk result (source_plan self.new ≡ after_call (source_plan self.old)) }
        ensures after_err { OnErr result (source_plan self.new ≡ after_fault (source_plan self.old)) }
        ensures grows { (source_plan self.old).faults ≤ (source_plan self.new).faults }
    {
        self.plan.call()?;
        let rest = &self.bytes[self.start..];
        let count = into.len().min(self.plan.piece).min(rest.len());
        into[..count].copy_from_slice(&rest[..count]);
        self.start += count;
        Ok(count)
    }
}
