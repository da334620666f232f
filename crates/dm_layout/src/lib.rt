//! The text of tokens, with a space between two of them where the layout has one.
#![tactic(auto)]

mod layout;

pub use layout::{Layout, Printed, print, print_piece};
