//! The text of implementations: each part is laid out by its tokens.
#![tactic(auto)]

mod attr;
pub mod expr;
mod format;
pub mod item;
mod pattern;
mod stmt;
