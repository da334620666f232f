//! Reading the expressions of the output language that no operator stands in or behind, as the plain reader does, but for `match`: paths,
//! calls, groups, strings and macros, over a reader of the expressions in them.
#![tactic(auto)]

pub mod bases;
mod macros;
