ghost use Rattle.answer_lines.specs.Refusals.{grids_refusal, loop_refusal, nearest_refusal, report_refusal, session_refusal, sight_refusal, trial_refusal, words_refusal};
ghost use Rattle.answer_lines.specs.declared.refusal.Refusal.TheVariants as refusals;
ghost use Rattle.std.specs.Prelude.{◌≡◌};

use crate::refusal::Refusal;
use displacement::SightFault;
use grid_writer::GridsFault;
use insar_ports::WriteFault;
use insar_words::WordsFault;
use loop_closure::LoopFault;
use nearest_surface::NearestFault;
use session_script::SessionFault;
use std::alloc::AllocError;
use text_lines::LineFault;
use trial_maker::TrialFault;

impl From<AllocError> for Refusal {
    ghost from_gives = { λ _ e. e ≡ refusals.Memory };

    fn from(_none: AllocError) -> Refusal {
        Refusal::Memory
    }
}

impl From<WriteFault> for Refusal {
    ghost from_gives = { λ _ e. e ≡ refusals.WriteFault };

    fn from(_fault: WriteFault) -> Refusal {
        Refusal::WriteFault
    }
}

impl From<SessionFault> for Refusal {
    ghost from_gives = { λ fault e. e ≡ session_refusal fault };

    fn from(fault: SessionFault) -> Refusal {
        match fault {
            SessionFault::Input(fault) => Refusal::Input(fault),
            SessionFault::ReadFault => Refusal::ReadFault,
            SessionFault::Memory => Refusal::Memory,
        }
    }
}

impl From<LineFault> for Refusal {
    ghost from_gives = { λ fault e. e ≡ report_refusal fault };

    fn from(fault: LineFault) -> Refusal {
        match fault {
            LineFault::Line(number) => Refusal::ReportLine(number),
            LineFault::TooLong => Refusal::ReportLong,
            LineFault::ReadFault => Refusal::ReadFault,
            LineFault::Memory => Refusal::Memory,
        }
    }
}

impl From<TrialFault> for Refusal {
    ghost from_gives = { λ fault e. e ≡ trial_refusal fault };

    fn from(fault: TrialFault) -> Refusal {
        match fault {
            TrialFault::Size => Refusal::Words,
            TrialFault::Memory => Refusal::Memory,
        }
    }
}

impl From<WordsFault> for Refusal {
    ghost from_gives = { λ fault e. e ≡ words_refusal fault };

    fn from(fault: WordsFault) -> Refusal {
        match fault {
            WordsFault::Refused => Refusal::Words,
            WordsFault::Memory => Refusal::Memory,
        }
    }
}

impl From<GridsFault> for Refusal {
    ghost from_gives = { λ fault e. e ≡ grids_refusal fault };

    fn from(fault: GridsFault) -> Refusal {
        match fault {
            GridsFault::Line { grid, line } => Refusal::GridLine { grid, line },
            GridsFault::Long(grid) => Refusal::GridLong(grid),
            GridsFault::Sizes(grid) => Refusal::GridSizes(grid),
            GridsFault::After(byte) => Refusal::AfterGrids(byte),
            GridsFault::ReadFault => Refusal::ReadFault,
            GridsFault::Memory => Refusal::Memory,
        }
    }
}

impl From<LoopFault> for Refusal {
    ghost from_gives = { λ fault e. e ≡ loop_refusal fault };

    fn from(fault: LoopFault) -> Refusal {
        match fault {
            LoopFault::Wide { x, y } => Refusal::Wide { x, y },
            LoopFault::Memory => Refusal::Memory,
        }
    }
}

impl From<SightFault> for Refusal {
    ghost from_gives = { λ fault e. e ≡ sight_refusal fault };

    fn from(fault: SightFault) -> Refusal {
        match fault {
            SightFault::Reference => Refusal::Reference,
            SightFault::Wide { x, y } => Refusal::Wide { x, y },
            SightFault::Memory => Refusal::Memory,
        }
    }
}

impl From<NearestFault> for Refusal {
    ghost from_gives = { λ fault e. e ≡ nearest_refusal fault };

    fn from(fault: NearestFault) -> Refusal {
        match fault {
            NearestFault::Sizes => Refusal::GridSizes(1),
            NearestFault::Missing { x, y } => Refusal::Missing { x, y },
            NearestFault::Wide { x, y } => Refusal::Wide { x, y },
        }
    }
}
