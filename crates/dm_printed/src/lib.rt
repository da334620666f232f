//! From a trait's name and the text of a declaration to the text of its implementation.
#![tactic(auto)]

pub mod declaration;
mod derive;
mod laws;
mod predicates;
pub mod traits;

pub use derive::{count_predicates, derive_printed, unknown_trait};
pub use laws::answers_once;
