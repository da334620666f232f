//! The derives: from a trait's name and a declaration to implementations with their text, or to the text alone, and the runs of the program.
#![tactic(auto)]

mod derive;

pub use derive::derive_text;
pub use dm_printed::{answers_once, derive_printed};
pub use dm_run::{
    Failed, LARGEST_INPUT, MemSink, MemSource, Sink, Source, Status, derive_main, ended_run, split,
};
pub use dm_sample::sample_text;
