//! What the plain reader of the output language answers: the only implementations with the tokens that it was given, or none.
#![tactic(auto)]

mod laws;

pub use laws::reading_answers;
