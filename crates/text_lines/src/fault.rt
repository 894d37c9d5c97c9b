ghost use Rattle.text_lines.specs.Faults.{line_fault_of};
ghost use Rattle.text_lines.specs.declared.fault.LineFault.TheVariants as faults;
ghost use Rattle.std.specs.Prelude.{◌≡◌};

use insar_ports::FeedFault;
use std::alloc::{AllocError, AllocFailed};

/// Why text in lines is not read.
#[derive(Clone, Copy, Debug, PartialEq, Eq)]
pub enum LineFault {
    /// The line with this number, from 1, breaks the form, is cut by the end of the input, or is missing.
    Line(u64),
    /// The limit cuts a line that the form needs.
    TooLong,
    /// The source failed and counted a fault.
    ReadFault,
    /// Memory ran out.
    Memory,
}

impl From<FeedFault> for LineFault {
    ghost from_gives = { λ fault e. e ≡ line_fault_of fault };

    fn from(fault: FeedFault) -> LineFault {
        match fault {
            FeedFault::ReadFault => LineFault::ReadFault,
            FeedFault::TooLong => LineFault::TooLong,
        }
    }
}

impl From<AllocError> for LineFault {
    ghost from_gives = { λ _ e. e ≡ faults.Memory };

    fn from(_fault: AllocError) -> LineFault {
        LineFault::Memory
    }
}

impl<T: Drop> From<AllocFailed<T>> for LineFault {
    ghost from_gives = { λ _ e. e ≡ faults.Memory };

    fn from(_fault: AllocFailed<T>) -> LineFault {
        LineFault::Memory
    }
}
