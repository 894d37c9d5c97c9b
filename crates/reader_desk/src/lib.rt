//! Published surfaces for readers that take no lock. One writer places surfaces on a shelf, and each reader looks at the
//! newest. What a reader sees never goes back, and is never older than what it was told of.
#![tactic(auto)]

mod front;
mod law;
mod names;
mod note;
mod reader;
mod shelf;
mod writer;

pub use crate::note::Note;
pub use crate::reader::ShelfReader;
pub use crate::shelf::Shelf;
pub use crate::writer::ShelfWriter;
