ghost use Rattle.std.specs.Prelude.{◌≡◌};
ghost use Rattle.surface_snapshots.specs.declared.fault.BuildFault.TheVariants.{Memory};

use certificates::SeamVerdict;
use std::alloc::AllocError;

/// Why no snapshot is made.
#[derive(Clone, Copy, Debug, PartialEq, Eq)]
pub enum BuildFault {
    /// The offsets and flows do not certify the surface. It carries the first break.
    Uncertified(SeamVerdict),
    /// There was too little memory. The offsets are right in number and range.
    Memory,
}

impl From<AllocError> for BuildFault {
    ghost from_gives = { λ _ fault. fault ≡ Memory };

    fn from(_none: AllocError) -> BuildFault {
        BuildFault::Memory
    }
}
