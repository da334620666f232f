//! Reading tokens: single tokens, groups, lists and the parts without types. The rule is docs/FORMATS.md, "Read"; its source is the Rust
//! Reference, "Items", "Attributes", "Names and paths".
#![tactic(auto)]

pub mod constants;
pub mod group;
pub mod lifetimes;
pub mod list;
pub mod macro_call;
pub mod parts;
pub mod range;
pub mod rest;
pub mod run;
pub mod token;
pub mod visibility;
pub mod words;
