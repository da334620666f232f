//! Reading the output language: what isn't read further, and formats, as the plain reader reads them.
#![tactic(auto)]

pub mod format;
pub mod opaque;
