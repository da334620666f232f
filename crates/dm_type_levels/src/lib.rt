//! How deep the tokens of types, paths, parameters and predicates stand.
#![tactic(auto)]

mod laws;
pub mod param;
pub mod parts;
pub mod pass;
pub mod ty;

pub use laws::levels_are_the_grammars;
