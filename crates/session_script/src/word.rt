use raster_model::Command;

/// What a line of the script part means.
#[derive(Clone, Copy, Debug, PartialEq, Eq)]
pub enum Word {
    /// `analyst`, with which an analyst's section begins.
    Analyst,
    /// `end`, the last line.
    End,
    /// A command.
    Command(Command),
}
