//! From a text to token trees, and the values of literals. The rule is docs/FORMATS.md, "Tokens", with the table of tokens; its source is
//! the Rust Reference, chapters "Whitespace", "Comments", "Identifiers" and "Tokens".
#![tactic(auto)]

mod blanks;
pub mod front;
mod laws;
mod lexing;
mod nesting;
mod numbers;
mod quotes;
mod rows;
mod values;
mod words;

pub use laws::{layout_lexes_back, lines_lex_back, strings_have_values};
pub use lexing::{lex, lex_owned, lex_within};
pub use numbers::int_value;
pub use values::str_value;
