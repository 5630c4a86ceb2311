//! Sources and sinks of bytes, which tell what they have left or took where they can and count their
//! faults, and the gate that a session tells its stages.
#![tactic(auto)]

mod gate;
mod memory;
mod stream;
mod system;

pub use gate::{Gate, NoGate, Stage};
pub use memory::{MemorySink, MemorySource};
pub use stream::{Failed, Sink, Source, send_all};
pub use system::{ErrorOutput, LazyFile, StdErr, StdOut};
