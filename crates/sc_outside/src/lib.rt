//! The outside of the program: sources that bytes are read from, and sinks that bytes are written to.
#![tactic(auto)]

mod calm;
mod faults;
mod memory;
mod sinks;
mod sources;
mod streams;
#[cfg(test)]
mod tests;

pub use calm::{CalmSink, CalmSource};
pub use faults::Failed;
pub use memory::{MemorySink, MemorySource};
pub use sinks::{Sink, write_all};
pub use sources::{ReadAll, Source, read_all};
pub use streams::{StdSink, StdSource};
