//! Reading the expressions and blocks of the output language, as the plain reader does.
#![tactic(auto)]

mod base;
mod chain;
pub mod nested;
mod operators;
mod prefix;
