//! The lines that tell answers: verdicts, refusals with their statuses, what a trial says, and what was published and seen.
#![tactic(auto)]

mod causes;
pub mod laws;
mod refusal;
mod refusals;
mod trials;
mod verdicts;
mod watching;
mod whole_verdicts;

pub use refusal::Refusal;
pub use refusals::put_refusal;
pub use trials::{Summary, put_summary, summary_of};
pub use verdicts::put_verdict;
pub use watching::{add_published, add_reader};
pub use whole_verdicts::put_whole_verdict;
