ghost use Rattle.session_script.specs.Faults.{session_fault_of_feed, fault_of_plane};
ghost use Rattle.session_script.specs.declared.fault.SessionFault.TheVariants as session_faults;
ghost use Rattle.std.specs.Prelude.{◌≡◌, Err, MatchResult, Ok};

use insar_ports::FeedFault;
use pgm_planes::{InputFault, ReadPlaneFault, Role};
use raster_model::Plane;
use std::alloc::{AllocError, AllocFailed};

/// Why no session was read.
#[derive(Clone, Copy, Debug, PartialEq, Eq)]
pub enum SessionFault {
    /// The bytes are not a session, and this is the first break.
    Input(InputFault),
    /// The source failed and counted a fault.
    ReadFault,
    /// There was no memory.
    Memory,
}

impl From<FeedFault> for SessionFault {
    ghost from_gives = { λ fault e. e ≡ session_fault_of_feed fault };

    fn from(fault: FeedFault) -> SessionFault {
        match fault {
            FeedFault::ReadFault => SessionFault::ReadFault,
            FeedFault::TooLong => SessionFault::Input(InputFault::TooLong),
        }
    }
}

impl From<AllocError> for SessionFault {
    ghost from_gives = { λ _ e. e ≡ session_faults.Memory };

    fn from(_none: AllocError) -> SessionFault {
        SessionFault::Memory
    }
}

impl<T: Drop> From<AllocFailed<T>> for SessionFault {
    ghost from_gives = { λ _ e. e ≡ session_faults.Memory };

    fn from(_none: AllocFailed<T>) -> SessionFault {
        SessionFault::Memory
    }
}

/// What reading a plane gave, as of a session.
pub fn in_session(role: Role, read: Result<Plane, ReadPlaneFault>) -> Result<Plane, SessionFault>
    ensures { MatchResult read (λ plane. result ≡ Ok plane) (λ fault. result ≡ Err (fault_of_plane role fault)) }
{
    read.map_err(|fault| plane_fault(role, fault))
}

/// The fault of a session whose plane was not read.
fn plane_fault(role: Role, fault: ReadPlaneFault) -> SessionFault
    ensures { result ≡ fault_of_plane role fault }
{
    match fault {
        ReadPlaneFault::Plane(fault) => SessionFault::Input(InputFault::Plane { role, fault }),
        ReadPlaneFault::TooLong => SessionFault::Input(InputFault::TooLong),
        ReadPlaneFault::ReadFault => SessionFault::ReadFault,
        ReadPlaneFault::Memory => SessionFault::Memory,
    }
}
