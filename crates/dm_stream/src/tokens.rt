ghost use Rattle.std.specs.Prelude.{◌≡◌, min, max};
ghost use Rattle.dm_stream.specs.Layout as laying;

use crate::text::Text;

/// The bytes of a declaration's text from `start` to before `end`.
#[derive(Clone, Copy, Debug, PartialEq, Eq)]
pub struct Span {
    pub start: usize,
    pub end: usize,
}

impl Span {
    /// The range of a token that stands in no text: 0..0.
    pub fn nowhere() -> Span
        ensures { result ≡ laying.nowhere }
    {
        Span { start: 0, end: 0 }
    }

    /// The least range that holds both.
    pub fn join(self, other: Span) -> Span
        ensures { result ≡ record { start = min self.start other.start; «end» = max self.«end» other.«end» } }
    {
        Span {
            start: self.start.min(other.start),
            end: self.end.max(other.end),
        }
    }
}

/// Whether a punct touches a punct that follows, as the first `:` of `::` does.
#[derive(Clone, Copy, Debug, PartialEq, Eq)]
pub enum Spacing {
    Joint,
    Alone,
}

/// `(..)`, `[..]` or `{..}`.
#[derive(Clone, Copy, Debug, PartialEq, Eq)]
pub enum Delim {
    Paren,
    Bracket,
    Brace,
}

/// The kinds of literals, as the Rust Reference has them. There are no floats.
#[derive(Clone, Copy, Debug, PartialEq, Eq)]
pub enum LitKind {
    Str,
    RawStr,
    ByteStr,
    RawByteStr,
    CStr,
    RawCStr,
    Char,
    Byte,
    Int,
}

/// An identifier or a keyword. The name of a raw one, as `r#type`, is without its `r#`.
#[derive(Debug, Drop)]
pub struct Ident<'a> {
    pub name: Text<'a>,
    pub raw: bool,
    pub span: Span,
}

/// A lifetime. Its name is without the `'`.
#[derive(Debug, Drop)]
pub struct Lifetime<'a> {
    pub name: Text<'a>,
    pub span: Span,
}

/// One character of punctuation.
#[derive(Clone, Copy, Debug, PartialEq, Eq)]
pub struct Punct {
    pub ch: char,
    pub spacing: Spacing,
    pub span: Span,
}

/// A literal, as it is spelled, with its quotes, escapes and suffix.
#[derive(Debug, Drop)]
pub struct Literal<'a> {
    pub kind: LitKind,
    pub text: Text<'a>,
    pub span: Span,
}

/// A tree that is no group.
#[derive(Debug, Drop)]
pub enum Token<'a> {
    Ident(Ident<'a>),
    Lifetime(Lifetime<'a>),
    Punct(Punct),
    Literal(Literal<'a>),
}

/// A place in the flat form of a list of trees: a token, or where a group begins or ends, with the range of that
/// delimiter. The number is that of the entries after `Open` up to the group's `Close`, with it.
#[derive(Debug, Drop)]
pub enum Entry<'a> {
    Token(Token<'a>),
    Open(Delim, Span, usize),
    Close(Delim, Span),
}
