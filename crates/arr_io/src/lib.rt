//! Sources and sinks of bytes, and reading and writing all of them.
//!
//! A [`Source`] gives the bytes that are still to come, a [`Sink`] keeps the bytes that were written. Either may tell
//! contracts what these are (`left`, `written`); those over memory do. Each counts its faults, and a call answers a fault
//! only where that count rose in this call or stands at its last value. So code that is generic over them can never make a
//! fault up.
//!
//! The crate promises, of every source and sink: bytes come and go in order, each once; a fault has its cause; too long
//! means more bytes than the limit.
//!
//! A [`SinkBuffer`] gathers small parts before a sink: what is put into it goes out in order, or a write failed and a byte is missing.
//!
//! The words of the contracts are in specs/Buffered.antt (`Puts`), specs/Causes.antt (`Rose`, `HasCause`) and specs/Taken.antt; on the bytes they are
//! those of std: `Consumes`, `Appends`, `Keeps`, `IsAtEnd`.
#![tactic(auto)]

mod memory_sink;
mod memory_source;
mod reading;
mod sink;
mod sink_buffer;
mod source;
mod std_sink;
mod std_source;
mod sure;
mod writing;

pub use memory_sink::MemorySink;
pub use memory_source::MemorySource;
pub use reading::{ReadFailure, read_all, read_up_to};
pub use sink::{Sink, WriteFault};
pub use sink_buffer::SinkBuffer;
pub use source::{Failed, Source};
pub use std_sink::StdSink;
pub use std_source::StdSource;
pub use sure::{SureSink, SureSource};
pub use writing::write_all;

/// Want of memory.
pub use std::alloc::AllocError as NoMemory;
