//! Where scripts come from and where printed bytes go: sources and sinks, those in memory, and those over the
//! readers and writers of std.
#![tactic(auto)]

mod adapters;
pub mod laws;
mod memory_sink;
mod memory_source;
mod sinks;
mod sources;
mod whole;

pub use adapters::{StdSink, StdSource};
pub use memory_sink::MemSink;
pub use memory_source::MemSource;
pub use sinks::Sink;
pub use sources::{Failed, Source};
pub use whole::{ReadEnd, push_all, read_all};

#[cfg(test)]
mod tests;
