//! Tokens of Rust text: what the crates of token streams, of their layout, of the lexer and of writing have for callers.
#![tactic(auto)]

pub use dm_layout::{Layout, print, print_piece};
pub use dm_lexer::{
    int_value, layout_lexes_back, lex, lex_owned, lex_within, lines_lex_back, str_value,
    strings_have_values,
};
pub use dm_quote::ToTokens;
pub use dm_stream::{
    Cursor, DEEPEST, Delim, Entry, Error, Ident, Kind, Lifetime, LitKind, Literal, Piece, Punct,
    Punctuated, Refusal, Seq, Spacing, Span, Text, Token, TokenStream,
};
