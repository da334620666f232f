//! The bodies of operators' methods as text, for which their trees aren't made.
#![tactic(auto)]

mod arms;
mod bodies;
mod calls;
mod constructor;
mod parts;
mod unary;

pub use bodies::body;
