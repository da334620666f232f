//! What a process has of its own: its standard input and output as a source and a sink, and the words of its command line.
#![tactic(auto)]

mod standard;
mod words;

pub use standard::{StdSink, StdSource};
pub use words::all_words;
