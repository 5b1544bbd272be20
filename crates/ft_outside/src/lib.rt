//! What comes in and goes out: sources, sinks, and the gate that a parallel check passes.
#![tactic(auto)]

mod errors;
mod gate;
mod mem_sink;
mod mem_source;
mod streams;
mod traits;
mod whole;

pub use errors::{ReadErr, WriteErr};
pub use gate::{Gate, NoGate};
pub use mem_sink::MemSink;
pub use mem_source::MemSource;
pub use streams::{StdSink, StdSource};
pub use traits::{Failed, Sink, Source};
pub use whole::{read_source, write_all};
