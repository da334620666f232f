//! Copies of syntax trees: the trait `CloneIn`.
#![tactic(auto)]

pub mod clone_in;
mod copy_decl;
mod copy_leaf;
mod copy_plain;
mod copy_ty;
pub mod joined;
mod nodes;
mod self_type;
mod types;

pub use clone_in::CloneIn;
pub use joined::{both, boxed, grown};
pub use self_type::{SelfArgument, SelfType};
