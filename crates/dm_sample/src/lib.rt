//! Samples: the words that ask for one, its declaration, and the lines that tell what the traits answer to it.
#![tactic(auto)]

mod declaration;
mod summary;
mod words;

pub use declaration::sample_text;
pub use summary::{Told, add_line};
pub use words::{LARGEST_SAMPLE, sample_size};
