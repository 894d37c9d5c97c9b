//! Reports as text: the whole history of a session, and each published surface with its costs and certificates.
#![tactic(auto)]

mod contents;
mod entry;
mod faces;
mod head;
mod items;
pub mod laws;
mod parse;
mod read;
mod report;
mod scribe;
mod surface;

pub use crate::contents::Report;
pub use crate::items::{Item, ReportSurface};
pub use crate::read::read_report;
pub use crate::report::{write_report, write_report_side_by_side};
pub use text_lines::LineFault as ReportFault;
