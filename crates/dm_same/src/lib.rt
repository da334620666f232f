//! Whether types are the same part for part.
#![tactic(auto)]

mod alike;
mod same_types;

pub use alike::{Alike, all_alike};
pub use same_types::same_type;
