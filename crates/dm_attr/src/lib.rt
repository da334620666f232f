//! Attributes that derives look at: the traits of kinds of attributes, how those of one name are read and merged, and which places
//! `PartialEq` leaves out.
#![tactic(auto)]

mod contents;
mod either;
mod examined;
mod fold;
mod forward;
mod parse;
mod parse_multiple;
mod parser;
mod skip;
pub mod skips;
mod spanning;
mod words;

pub use contents::{parse_contents, refuse_second};
pub use either::Either;
pub use fold::{merge_opt_attrs, parse_attrs, parse_attrs_with};
pub use forward::Forward;
pub use parse::Parse;
pub use parse_multiple::ParseMultiple;
pub use parser::Parser;
pub use skip::Skip;
pub use spanning::Spanning;
