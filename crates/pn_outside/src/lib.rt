//! Where bytes come from and where they go: sources and sinks over the real streams and over
//! memory, with contracts that say what a failed call left behind.
#![tactic(auto)]

mod buffered;
pub mod limits;
mod memory_input;
mod memory_output;
mod plain;
mod put;
mod streams;
mod traits;

pub use buffered::BufferedSink;
pub use memory_input::MemorySource;
pub use memory_output::MemorySink;
pub use plain::{CountSink, PlainSource};
pub use put::{put_all, put_text};
pub use streams::{StdSink, StdSource};
pub use traits::{Failed, Sink, Source};
