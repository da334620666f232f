//! What a declaration may declare.
#![tactic(auto)]

mod check;
mod declarations;
mod places;
mod seen;

pub use check::check_names;
pub use seen::check_names_in;
