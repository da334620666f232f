//! A run of the program, from bytes to bytes: what it reads and writes, and the code that it ends with.
#![tactic(auto)]

mod ended;
mod input;
mod line;
mod summary;
mod top;

pub use dm_outside::{Failed, LARGEST_INPUT, MemSink, MemSource, Sink, Source, Status};
pub use ended::ended_run;
pub use input::split;
pub use top::derive_main;
