//! Reading the implementations that the program prints back from their text.
#![tactic(auto)]

mod items;
mod laws;
mod read;

pub use laws::printed_reads_back;
pub use read::{read_items, read_owned_items};
