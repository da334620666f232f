//! Reading the output language: arms, statements and blocks, over a reader of the expressions in them.
#![tactic(auto)]

mod arm;
mod block;
pub mod blocks;
