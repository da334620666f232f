//! Reading the output language: what is read has just the tokens that were passed.
#![tactic(auto)]

pub mod exact;
