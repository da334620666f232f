//! The predicates of an implementation as text: the declared ones, and those that the operations on its fields need. No tree of them is made.
#![tactic(auto)]

pub mod needed;
pub mod printing;
