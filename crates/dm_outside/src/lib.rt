//! What a run touches outside of itself: sources and sinks, those over memory, how all is read and a text is written whole, and the status
//! that a run ends with.
#![tactic(auto)]

mod exit;
mod memory;
mod outside;
mod transfer;

pub use exit::Status;
pub use memory::{MemSink, MemSource};
pub use outside::{Failed, Sink, Source};
pub use transfer::{LARGEST_INPUT, ReadError, read_all, write_all};
