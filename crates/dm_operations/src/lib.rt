//! The implementations of the operators of `core::ops`, printed without their trees.
#![tactic(auto)]

pub mod expand;
mod printing;
