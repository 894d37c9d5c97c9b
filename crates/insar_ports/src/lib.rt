//! Where bytes come from and where they go: sources, sinks, and a feed that hands bytes out one by
//! one.
#![tactic(auto)]

mod adapters;
mod buffer;
mod feed;
mod memory_sink;
mod memory_source;
mod plan;
mod sink;
mod source;

pub use adapters::{StdSink, StdSource};
pub use feed::{Feed, FeedFault, Line};
pub use memory_sink::MemorySink;
pub use memory_source::MemorySource;
pub use sink::{Sink, WriteFault, put_all};
pub use source::{Failed, Source};
