ghost use Rattle.displacement.specs.declared.fault.SightFault.TheVariants as faults;
ghost use Rattle.std.specs.Prelude.{◌≡◌};

use std::alloc::AllocError;

/// Why there are no displacements.
#[derive(Clone, Copy, Debug, PartialEq, Eq)]
pub enum SightFault {
    /// The reference pixel is not on the grid, or it has the NODATA value.
    Reference,
    /// A block's displacement does not fit 64 bits, or is the NODATA value: the first such block.
    Wide {
        /// The block's column.
        x: u32,
        /// The block's row.
        y: u32,
    },
    /// There was no memory.
    Memory,
}

impl From<AllocError> for SightFault {
    ghost from_gives = { λ _ e. e ≡ faults.Memory };

    fn from(_none: AllocError) -> SightFault {
        SightFault::Memory
    }
}
