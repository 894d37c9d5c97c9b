ghost use Rattle.std.specs.Prelude.{◌≤◌, vec_len};

use crate::buffer::zeroes;
use crate::plan::Plan;
use crate::sink::Sink;
use crate::source::Failed;
use std::alloc::{AllocError, Global};

/// A sink that keeps bytes in memory, up to a capacity. It tells its bytes, takes them in pieces, and
/// fails in the calls that are named.
#[derive(Drop)]
pub struct MemorySink {
    buffer: Vec<u8>,
    end: usize,
    plan: Plan,
    ghost within: { end ≤ vec_len buffer },
    ghost positive: { 1 ≤ plan.piece },
}

impl MemorySink {
    ghost use Rattle.std.specs.Prelude.{◌≡◌, [], IfOk};
    ghost use Rattle.insar_ports.specs.Memory.{bytes_held, capacity_of, sink_plan};
    ghost use Rattle.insar_ports.specs.Plans.{fresh_plan};

    /// An empty sink that takes at most `piece` bytes in a call and `capacity` in all. The calls whose
    /// numbers, from 1, are in `failing` fail and count a fault. The number of a call stays at the last
    /// `u32`.
    pub fn new(
        alloc: Global,
        capacity: usize,
        piece: usize,
        failing: Vec<u32>,
    ) -> Result<MemorySink, AllocError>
        requires { 1 ≤ piece }
        ensures held { IfOk result (λ sink. bytes_held sink ≡ []) }
        ensures capacity { IfOk result (λ sink. capacity_of sink ≡ capacity) }
        ensures plan { IfOk result (λ sink. sink_plan sink ≡ fresh_plan piece failing) }
    {
        let buffer = zeroes(alloc, capacity)?;
        Ok(MemorySink {
            buffer,
            end: 0,
            plan: Plan::new(piece, failing),
        })
    }

    /// The bytes that the sink holds.
    pub fn bytes(&self) -> &[u8]
        ensures { result.now ≡ bytes_held self.now }
    {
        &self.buffer[..self.end]
    }
}

impl Sink for MemorySink {
    ghost use Rattle.std.specs.Prelude.{◌≡◌, ◌<◌, ◌-◌, ◌++◌, ◌⊎◌, Some, length, take, min, IfOk, OnErr, OnOk, Ok};
    ghost use Rattle.insar_ports.specs.Memory.{bytes_held, capacity_of, sink_plan, HasNoRoom};
    ghost use Rattle.insar_ports.specs.Plans.{after_call, after_fault, WillFail};

    ghost held = { λ sink. Some (bytes_held sink) };

    ghost faults = { λ sink. (sink_plan sink).faults };

    /// Appends as many bytes as a piece and the capacity have room for. A piece that is not empty fails
    /// if the sink is full.
    fn put(&mut self, piece: &[u8]) -> Result<usize, Failed>
        ensures fails { OnErr result (WillFail (sink_plan self.old) ⊎ HasNoRoom self.old piece.now) }
        ensures works { OnOk result (¬ WillFail (sink_plan self.old)) }
        ensures room { OnOk result (¬ HasNoRoom self.old piece.now) }
        ensures within { IfOk result (λ n. n ≤ length piece.now) }
        ensures count { IfOk result (λ n. n ≡ min (min (length piece.now) (sink_plan self.old).piece) (capacity_of self.old - length (bytes_held self.old))) }
        ensures gained { IfOk result (λ n. bytes_held self.new ≡ bytes_held self.old ++ take n piece.now) }
        ensures progress { result ≡ Ok 0 → length piece.now ≡ 0 }
        ensures failed { OnErr result (bytes_held self.new ≡ bytes_held self.old) }
        ensures capacity { capacity_of self.new ≡ capacity_of self.old }
        ensures after_ok { OnOk result (sink_plan self.new ≡ after_call (sink_plan self.old)) }
        ensures after_err { OnErr result (sink_plan self.new ≡ after_fault (sink_plan self.old)) }
        ensures grows { (sink_plan self.old).faults ≤ (sink_plan self.new).faults }
    {
        self.plan.call()?;
        let room = self.buffer.len() - self.end;
        if room == 0 && !piece.is_empty() {
            self.plan.count_fault();
            return Err(Failed);
        }
        let count = piece.len().min(self.plan.piece).min(room);
        let end = self.end + count;
        self.buffer[self.end..end].copy_from_slice(&piece[..count]);
        self.end = end;
        Ok(count)
    }
}
