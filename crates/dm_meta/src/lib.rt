//! What a list of tokens begins with: a type, a path, predicates, and the metas of attributes.
#![tactic(auto)]

mod meta;
mod parse_parts;
mod path_or_keyword;

pub use meta::{ArgReader, Meta, MetaList, NestedMeta};
pub use parse_parts::{parse_path, parse_predicates, parse_type};
pub use path_or_keyword::PathOrKeyword;
