//! Copies of the output language's trees.
//!
//! They stand in a crate of their own, since nothing that is derived needs them: what prints and runs implementations doesn't wait for
//! their proofs.
#![tactic(auto)]

mod bare;
mod clone_emitted;
mod copy_expr;
mod copy_item;
mod copy_leaf;
mod copy_parts;
mod copy_pattern;
mod node;

pub use clone_emitted::CloneEmitted;
