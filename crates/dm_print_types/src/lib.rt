//! Tokens, paths, types, parameters and predicates as text: each is laid out by its tokens.
#![tactic(auto)]

pub mod param;
pub mod path;
pub mod token;
