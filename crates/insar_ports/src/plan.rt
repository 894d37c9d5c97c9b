use crate::source::Failed;

/// How a port in memory behaves: how much it moves in a call, and which calls fail.
#[derive(Drop)]
pub struct Plan {
    /// The most bytes that a call moves.
    pub piece: usize,
    /// The numbers of the calls that fail, from 1.
    pub failing: Vec<u32>,
    /// How many calls there were.
    pub calls: u32,
    /// The count of faults.
    pub faults: u64,
}

impl Plan {
    ghost use Rattle.std.specs.Prelude.{◌≡◌, ◌≤◌, ◌+◌, ◌-◌, ◌^◌, min, OnErr, OnOk};
    ghost use Rattle.insar_ports.specs.Plans.{after_call, after_fault, fresh_plan, WillFail};

    pub fn new(piece: usize, failing: Vec<u32>) -> Plan
        ensures { result ≡ fresh_plan piece failing }
    {
        Plan {
            piece,
            failing,
            calls: 0,
            faults: 0,
        }
    }

    /// Counts a call, and a fault if it is to fail.
    pub fn call(&mut self) -> Result<(), Failed>
        ensures fails { OnErr result (WillFail self.old) }
        ensures works { OnOk result (¬ WillFail self.old) }
        ensures after_ok { OnOk result (self.new ≡ after_call self.old) }
        ensures after_err { OnErr result (self.new ≡ after_fault self.old) }
        ensures grows { self.old.faults ≤ self.new.faults }
    {
        self.calls = self.calls.saturating_add(1);
        if self.failing.contains(&self.calls) {
            self.count_fault();
            return Err(Failed);
        }
        Ok(())
    }

    /// Counts a fault in a call that was counted.
    pub fn count_fault(&mut self)
        ensures counted { self.new ≡ record self.old { faults = min (self.old.faults + 1) (2 ^ 64 - 1) } }
        ensures grows { self.old.faults ≤ self.new.faults }
    {
        self.faults = self.faults.saturating_add(1);
    }
}
