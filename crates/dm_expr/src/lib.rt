//! Where expressions begin and end in a list of trees.
//!
//! An expression is not parsed. It is a run of trees that ends at a comma or at the end of the list, where `::<..>`,
//! `<..>::` and `|..|` are passed whole, so that a comma in one of them ends nothing.
//!
//! Each call takes a front of the list, and gives it with the place behind it, or nothing where no such front stands. A group
//! is one tree, and what is inside it doesn't count.
#![tactic(auto)]

mod fronts;
mod laws;
mod runs;
mod units;

pub use fronts::{balanced_pair, pair_size, path_sep, punct, punct_with_spacing, token_tree};
pub use laws::nothing_is_lost;
pub use runs::{discriminant_end, take_until1};
pub use units::{Unit, next_unit};
