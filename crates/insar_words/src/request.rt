use crate::displacing::Displacing;
use crate::parting::Parting;
use crate::screening::Screening;
use crate::settings::Settings;
use crate::trial::Trial;
use crate::watching::Watching;

/// What words ask for.
#[derive(Clone, Copy)]
pub enum Request {
    /// `unwrap`: a session's report.
    Unwrap(Settings),
    /// `grid`: the surface that a session ends with.
    Grid(Settings),
    /// `check`: the verdict on a report. It has no workers.
    Check(Settings),
    /// `trial`: a test session, made and run.
    Trial(Trial),
    /// `screen`: a session with another first mask.
    Screen(Screening),
    /// `closure`: what three grids leave around a loop.
    Closure,
    /// `displacement`: a grid's displacements along the line of sight.
    Displacement(Displacing),
    /// `whole`: the surface that costs least of all. Its side of tiles is the default.
    Whole(Settings),
    /// `check-whole`: the verdict on such a surface. It has no workers, and its side of tiles is the default.
    CheckWhole(Settings),
    /// `watch`: what was published, and what readers saw of it.
    Watch(Watching),
    /// `nearest`: the surface of a session's phase that is nearest to a given one.
    Nearest,
    /// `parts`: the parts of a whole surface in which all of nearly the least cost have the same cycles.
    Parts(Parting),
}
