//! Reading the output language: statements that hold no expressions, as the plain reader reads them.
#![tactic(auto)]

pub mod statement;
