//! Reading the output language: types and qualified paths, as the plain reader reads them.
#![tactic(auto)]

pub mod qualified;
pub mod ty;
