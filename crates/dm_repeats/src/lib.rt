//! The first name that a declaration declares again.
#![tactic(auto)]

pub mod repeats;
