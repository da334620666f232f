//! Nodes of patterns: trees that are private, so that what holds a node needs to know nothing of how a tree is dropped, and how they are made
//! of their parts. Contracts see the trees.
#![tactic(auto)]

pub mod make;
pub mod node;
