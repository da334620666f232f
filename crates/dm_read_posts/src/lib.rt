//! Reading the output language: members, methods and `?` behind a receiver, over a reader of the expressions in them.
#![tactic(auto)]

mod post;
pub mod posts;
