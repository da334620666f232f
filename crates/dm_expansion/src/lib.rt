//! Items with their text.
#![tactic(auto)]

mod expansion;

pub use expansion::{Expansion, print_items, with_text};
