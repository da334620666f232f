//! Reading methods and implementations of the output language, as the plain reader does, over a reader of the expressions in them.
#![tactic(auto)]

mod count;
mod item;
mod method;

pub use method::Bodies;
