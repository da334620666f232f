//! The patterns of arms of a match over a struct or a variant, as derive_more's `FieldsExt` has them.
#![tactic(auto)]

mod patterns;

pub use patterns::{exhaustive_arm_pattern, non_exhaustive_arm_pattern};
