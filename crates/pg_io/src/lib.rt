//! Bytes in and out. A source and a sink have a written meaning: which bytes a call gives or takes, and when it
//! fails. Whole texts are read and written through them, and doubles in memory stand in for the real streams.
#![tactic(auto)]

mod laws;
mod memory_sink;
mod memory_source;
mod pieces;
mod read;
mod real;
mod sink;
mod source;
mod sure;
mod write;

pub use laws::{
    all_bytes_are_written, all_that_is_left_is_read, pieces_and_calls, reads_give_the_next_bytes,
    writes_add_the_first_bytes,
};
pub use memory_sink::MemorySink;
pub use memory_source::MemorySource;
pub use read::{ReadAllError, read_all};
pub use real::{RealSink, RealSource};
pub use sink::{Put, Sink};
pub use source::{Source, Took};
pub use sure::{SureSink, SureSource};
pub use write::{WriteError, write_all};

#[cfg(test)]
mod tests;
