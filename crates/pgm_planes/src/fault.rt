ghost use Rattle.std.specs.Prelude.{◌≡◌};
ghost use Rattle.insar_ports.specs.declared.feed.FeedFault.TheVariants as feed_faults;
ghost use Rattle.pgm_planes.specs.declared.fault.ReadPlaneFault.TheVariants as faults;
ghost use Rattle.pgm_planes.specs.Faults.{plane_fault_of_feed};

use insar_ports::FeedFault;
use std::alloc::{AllocError, AllocFailed};
use thiserror::Error;

/// What a plane is read for.
#[derive(Clone, Copy, Debug, PartialEq, Eq)]
pub enum Role {
    /// Wrapped phase, one cycle being 65536 units: maxval is 65535.
    Phase,
    /// Weights of pixels, as made from coherence: any maxval.
    Weight,
    /// 0 for a masked pixel, anything else for an open one: any maxval.
    Mask,
}

/// The first break of a plane's form, in order of bytes.
#[derive(Clone, Copy, Debug, PartialEq, Eq, Error)]
pub enum PlaneFault {
    /// The first two bytes are not `P5` or `P2`, or the input ends before them.
    #[error("no PGM magic")]
    Magic,
    /// The byte at this place is not allowed there, or the input ends in the header after this many
    /// bytes. For a weight or a mask also: maxval, whose first digit is there, is 0 or above
    /// 65535.
    #[error("the form breaks at byte {0}")]
    Form(u64),
    /// A side is 0 or above the most of the extent, or there are more pixels than that.
    #[error("the size {width} by {height} is beyond the limits")]
    Size { width: u32, height: u32 },
    /// The maxval of a phase plane is this and not 65535.
    #[error("the maxval of the phase is {0}")]
    PhaseMaxval(u32),
    /// The sample with this index, from 0 in row order, is above maxval.
    #[error("the sample {index} is {value}, above maxval")]
    SampleAbove { index: u32, value: u32 },
    /// The input ends before the last sample; this many samples were whole.
    #[error("the input ends after {0} samples")]
    Short(u32),
}

/// Why no plane was read.
#[derive(Clone, Copy, Debug, PartialEq, Eq)]
pub enum ReadPlaneFault {
    /// The bytes are not a plane, and this is the first break.
    Plane(PlaneFault),
    /// The feed's limit was handed out, and another byte that is asked for follows.
    TooLong,
    /// The source failed and counted a fault.
    ReadFault,
    /// There was no memory for the samples.
    Memory,
}

impl From<FeedFault> for ReadPlaneFault {
    ghost from_gives = { λ fault e. e ≡ plane_fault_of_feed fault };

    fn from(fault: FeedFault) -> ReadPlaneFault {
        match fault {
            FeedFault::ReadFault => ReadPlaneFault::ReadFault,
            FeedFault::TooLong => ReadPlaneFault::TooLong,
        }
    }
}

impl From<AllocError> for ReadPlaneFault {
    ghost from_gives = { λ _ e. e ≡ faults.Memory };

    fn from(_none: AllocError) -> ReadPlaneFault {
        ReadPlaneFault::Memory
    }
}

impl<T: Drop> From<AllocFailed<T>> for ReadPlaneFault {
    ghost from_gives = { λ _ e. e ≡ faults.Memory };

    fn from(_none: AllocFailed<T>) -> ReadPlaneFault {
        ReadPlaneFault::Memory
    }
}

/// Why an input was refused.
#[derive(Clone, Copy, Debug, PartialEq, Eq, Error)]
pub enum InputFault {
    /// A plane breaks its form.
    #[error("{role:?} plane: {fault}")]
    Plane { role: Role, fault: PlaneFault },
    /// The input has more bytes than an input may have.
    #[error("the input is too long")]
    TooLong,
    /// The plane of this role does not have the phase plane's size.
    #[error("the size of the {0:?} plane is not that of the phase plane")]
    SizesDiffer(Role),
    /// This line of the script part, from 1, is not one that is allowed there.
    #[error("line {0} of the scripts is none that may stand there")]
    ScriptLine(u32),
    /// The rectangle of this line does not lie in the raster.
    #[error("the rectangle of line {0} does not lie in the raster")]
    Outside(u32),
    /// With this line there are more than 8 analysts.
    #[error("with line {0} there are too many analysts")]
    TooManyAnalysts(u32),
    /// With this line its analyst has more than 4096 commands.
    #[error("with line {0} an analyst has too many commands")]
    TooManyCommands(u32),
    /// With this line the settle commands of all analysts times pixels are above 67108864.
    #[error("with line {0} too many pixels are settled")]
    SettleLimit(u32),
    /// The input ends before the line `end`.
    #[error("the input ends before the line end")]
    NoEnd,
    /// A byte is at this place, after the line `end`.
    #[error("the input goes on after the line end, at byte {0}")]
    AfterEnd(u64),
    /// With this line the change commands of all analysts times tiles are above 16777216.
    #[error("with line {0} too many tiles are changed")]
    EditLimit(u32),
}
