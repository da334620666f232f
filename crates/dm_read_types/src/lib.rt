//! Reading types by the grammar of docs/FORMATS.md, "Read" (Rust Reference, "Types"), over the rules of paths and bounds.
#![tactic(auto)]

pub mod bare;
pub mod brackets;
pub mod entry;
pub mod function;
pub mod node;
pub mod rules;
pub mod small;
pub mod ty;
