ghost use Rattle.insar_words.specs.Limits.{IsReaders, IsReads};

use crate::settings::Settings;

/// A run beside readers.
#[derive(Clone, Copy)]
pub struct Watching {
    /// What options set of the run.
    pub settings: Settings,
    /// How many readers there are.
    pub readers: u32,
    /// How often each reader looks at the newest surface.
    pub reads: u32,
    pub ghost crowd: { IsReaders readers },
    pub ghost looks: { IsReads reads },
}
