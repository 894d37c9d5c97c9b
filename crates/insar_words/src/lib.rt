//! Words: the stated command line, what words ask for by it, and their reader.
#![tactic(auto)]

mod displacing;
mod fault;
pub mod laws;
mod parting;
mod reading;
mod request;
mod screening;
mod settings;
mod stated;
mod table;
mod trial;
mod watching;

pub use displacing::Displacing;
pub use fault::WordsFault;
pub use parting::Parting;
pub use reading::read_words;
pub use request::Request;
pub use screening::Screening;
pub use settings::Settings;
pub use trial::Trial;
pub use watching::Watching;
