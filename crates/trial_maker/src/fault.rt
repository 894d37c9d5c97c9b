ghost use Rattle.std.specs.Prelude.{◌≡◌};
ghost use Rattle.trial_maker.specs.declared.fault.TrialFault.TheVariants as faults;

use std::alloc::AllocError;

/// Why no session was made.
#[derive(Clone, Copy, Debug, PartialEq, Eq)]
pub enum TrialFault {
    /// The width, the height or the number of pixels breaks a limit.
    Size,
    /// There was no memory.
    Memory,
}

impl From<AllocError> for TrialFault {
    ghost from_gives = { λ _ e. e ≡ faults.Memory };

    fn from(_none: AllocError) -> TrialFault {
        TrialFault::Memory
    }
}
