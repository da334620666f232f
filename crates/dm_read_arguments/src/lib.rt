//! Reading the output language: the rules of expressions over a reader of the expressions in them, arguments, and fields with values.
#![tactic(auto)]

pub mod argument;
pub mod rules;
pub mod sort;
