//! Where bytes come from and where they go, each end with a count of its faults: in memory for tests, and the
//! standard input and output.
#![tactic(auto)]

mod calls;
mod mem_sink;
mod mem_source;
mod sink;
mod source;
mod standard;

pub use mem_sink::MemSink;
pub use mem_source::MemSource;
pub use sink::{Sink, WriteFault, write_all};
pub use source::{Failed, ReadFault, Source, read_up_to};
pub use standard::{StdSink, StdSource};
