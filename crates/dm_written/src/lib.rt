//! Which implementations a text can have.
#![tactic(auto)]

mod laws;

pub use laws::implementations_fit;
