//! How deep the tokens of implementations stand.
#![tactic(auto)]

mod attr;
mod expr;
mod format;
mod item;
mod parts;
mod pattern;
mod stmt;

pub use item::first_deep;
