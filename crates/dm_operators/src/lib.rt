//! The operators of `core::ops`: what each means, what its implementation is, and which declarations have none; their table, and the walk
//! over the places that one looks at.
#![tactic(auto)]

mod laws;
pub mod operator;
pub mod places;

pub use laws::operators_are_given;
