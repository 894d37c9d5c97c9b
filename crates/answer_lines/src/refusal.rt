ghost use Rattle.std.specs.Prelude.{◌≡◌};
ghost use Rattle.answer_lines.specs.Refusals.{status_of};

use pgm_planes::InputFault;

/// Why a command was not done.
#[derive(Clone, Copy, Debug, PartialEq, Eq)]
pub enum Refusal {
    /// The words are not a command.
    Words,
    /// The input breaks its form or a limit.
    Input(InputFault),
    /// The line of a report with this number, from 1, breaks its form, is cut or is missing.
    ReportLine(u64),
    /// A report has more bytes than one may have.
    ReportLong,
    /// This line of this grid, both counted from 1, breaks the form of grids, is cut or is missing.
    GridLine { grid: u32, line: u64 },
    /// There are more bytes than grids may have: within this grid, or after it if it is the last.
    GridLong(u32),
    /// This grid has another size than the first, or than the session.
    GridSizes(u32),
    /// A byte stands at this place, counted from 0, after the last grid.
    AfterGrids(u64),
    /// What would stand in this column and row of the answer does not fit 64 bits, or is the NODATA value: the first such.
    Wide { x: u32, y: u32 },
    /// The reference pixel is not on the grid, or it has no value.
    Reference,
    /// No value is given at this pixel, which is open: the first such.
    Missing { x: u32, y: u32 },
    /// There was no memory.
    Memory,
    /// The source failed and counted a fault.
    ReadFault,
    /// The sink failed and counted a fault.
    WriteFault,
}

impl Refusal {
    /// Its exit status.
    pub fn status(&self) -> u8
        ensures { result ≡ status_of self.now }
    {
        match self {
            Refusal::Words => 2,
            Refusal::Input(_)
            | Refusal::ReportLine(_)
            | Refusal::ReportLong
            | Refusal::GridLine { .. }
            | Refusal::GridLong(_)
            | Refusal::GridSizes(_)
            | Refusal::AfterGrids(_)
            | Refusal::Wide { .. }
            | Refusal::Reference
            | Refusal::Missing { .. } => 3,
            Refusal::Memory => 4,
            Refusal::ReadFault => 5,
            Refusal::WriteFault => 6,
        }
    }
}
