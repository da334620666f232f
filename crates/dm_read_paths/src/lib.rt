//! Reading paths, their arguments and bounds by the grammar of docs/FORMATS.md, "Read" (Rust Reference, "Paths", "Trait and lifetime
//! bounds"), over a reader of the types in them.
#![tactic(auto)]

pub mod arguments;
pub mod bounds;
pub mod grammar;
pub mod kind;
pub mod path;
pub mod qualified;
