//! Reading the output language: patterns, as the plain reader reads them.
#![tactic(auto)]

pub mod arm;
pub mod nested;
mod path_pattern;
pub mod pattern;
