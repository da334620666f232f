//! What values are as tokens: the trait `ToTokens`, and what each part of a declaration is written with.
#![tactic(auto)]

mod emit;
mod emit_decl;
pub mod emit_parts;
mod to_tokens;
mod tokens;

pub use emit::{write_arguments, write_bounds, write_qualified, write_type};
pub use emit_parts::{write_attributes, write_const, write_for};
pub use tokens::ToTokens;
