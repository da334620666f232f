//! Parts put together, in lists and in front of others, and let go; trees in boxes and in lists that hide how they are dropped.
#![tactic(auto)]

mod list;
mod node;

pub use list::Gathers;
pub use node::{Node, Nodes, discard, fronted};
