//! Reading references and pointers, over a reader of the types in them.
#![tactic(auto)]

pub mod pointers;
