ghost use Rattle.loop_closure.specs.declared.fault.LoopFault.TheVariants as faults;
ghost use Rattle.std.specs.Prelude.{◌≡◌};

use std::alloc::AllocError;

/// Why a loop is not closed.
#[derive(Clone, Copy, Debug, PartialEq, Eq)]
pub enum LoopFault {
    /// The closure of this pixel, the first such one in row order, does not fit 64 bits or is the NODATA value.
    Wide { x: u32, y: u32 },
    /// Memory ran out.
    Memory,
}

impl From<AllocError> for LoopFault {
    ghost from_gives = { λ _ e. e ≡ faults.Memory };

    fn from(_fault: AllocError) -> LoopFault {
        LoopFault::Memory
    }
}
