//! Token streams: the tokens of a text as a list of trees, places in it; the texts, the lists and the refusals that all layers use.
#![tactic(auto)]

pub mod copy;
mod cursor;
mod error;
mod levels;
mod owned;
mod seq;
mod stream;
mod text;
mod tokens;

pub use cursor::{Cursor, Piece, span_of};
pub use error::{Error, Kind, Made, Read, Refusal};
pub use levels::DEEPEST;
pub use seq::{Punctuated, Seq};
pub use stream::TokenStream;
pub use text::Text;
pub use tokens::{Delim, Entry, Ident, Lifetime, LitKind, Literal, Punct, Spacing, Span, Token};
