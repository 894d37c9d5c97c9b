//! What the program does for each request: a function for each, which reads the source and writes the answer, or says why not.
#![tactic(auto)]

mod board;
mod both;
mod check;
mod check_whole;
mod closure;
mod displacements;
mod ends;
mod grid;
mod grids;
mod nearest;
mod pages;
mod parts;
mod session;
mod trial;
mod unwrap;
mod watch;
mod watching;
mod whole;

pub use crate::check::run_check;
pub use crate::check_whole::run_check_whole;
pub use crate::closure::run_closure;
pub use crate::displacements::run_displacement;
pub use crate::ends::end_of;
pub use crate::grid::run_grid;
pub use crate::nearest::run_nearest;
pub use crate::parts::run_parts;
pub use crate::session::read_given;
pub use crate::trial::run_trial;
pub use crate::unwrap::run_unwrap;
pub use crate::watch::run_watch;
pub use crate::whole::run_whole;
