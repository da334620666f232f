//! `PartialEq`: from a declaration to the text of its implementation.
#![tactic(auto)]

mod checks;
mod comparing;
mod laws;
pub mod partial_eq;
pub mod predicates;
mod printing;

pub use laws::predicates_cover_calls;
