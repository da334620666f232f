//! What the rules of the grammar read from: an input that holds its place, and lists of parts.
#![tactic(auto)]

pub mod input;
pub mod join;
pub mod list;
pub mod parts;

pub use input::Input;
