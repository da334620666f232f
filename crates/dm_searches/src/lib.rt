//! Searches in types: whether a parameter is mentioned, contained or used, whether a type stands in another, and what a type wraps. All but
//! one take no memory.
#![tactic(auto)]

mod contains;
mod holds;
mod inner;
mod mentions;
mod names;
mod opaque;
mod search;
mod structure;
mod tuples;
mod uses;

pub use contains::{contains_any, contains_generics, path_contains_any, path_contains_generics};
pub use inner::{get_inner, get_option_inner, is_option};
pub use search::GenericsSearch;
pub use structure::contains_type_structurally;
pub use tuples::validate_type;
pub use uses::{get_if_type_parameter_used_in_type, is_type_parameter_used_in_type};
