ghost use Rattle.grid_writer.specs.declared.fault.GridsFault.TheVariants as faults;
ghost use Rattle.std.specs.Prelude.{◌≡◌};

use std::alloc::AllocFailed;

/// Why several grids are not read. Grids and lines are counted from 1, bytes from 0.
#[derive(Clone, Copy, Debug, PartialEq, Eq)]
pub enum GridsFault {
    /// This line of this grid is the first that breaks the form, is cut by the end of the input, or is missing.
    Line { grid: u32, line: u64 },
    /// The limit was handed out and another byte is there: within this grid, or after it if it is the last.
    Long(u32),
    /// The size of this grid is not that of the first.
    Sizes(u32),
    /// A byte stands at this place, after the last grid.
    After(u64),
    /// The source failed and counted a fault.
    ReadFault,
    /// Memory ran out.
    Memory,
}

impl<T: Drop> From<AllocFailed<T>> for GridsFault {
    ghost from_gives = { λ _ e. e ≡ faults.Memory };

    fn from(_fault: AllocFailed<T>) -> GridsFault {
        GridsFault::Memory
    }
}
