//! Reading the output language: places in its trees, signs and words there, lists of any parts, and paths, each as the plain reader reads it.
#![tactic(auto)]

pub mod expect;
pub mod front;
pub mod list;
pub mod path;
pub mod place;
