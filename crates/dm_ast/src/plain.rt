//! The parts that hold no types.

use dm_stream::{Delim, Ident, Literal, Seq, Span, TokenStream};

/// Tokens that are not read.
#[derive(Drop)]
pub struct Opaque<'a> {
    pub tokens: TokenStream<'a>,
}

/// A path without arguments. `leading_colon` says whether `::` stands before its first name.
#[derive(Drop)]
pub struct PlainPath<'a> {
    pub leading_colon: bool,
    pub segments: Seq<Ident<'a>>,
}

/// `pub`, `pub(crate)`, `pub(self)`, `pub(super)` or `pub(in path)`.
#[derive(Drop)]
pub enum Vis<'a> {
    Public,
    Crate,
    SelfOnly,
    Super,
    In(PlainPath<'a>),
}

/// An outer attribute, with the range from `#` to `]`.
#[derive(Drop)]
pub struct Attribute<'a> {
    pub path: PlainPath<'a>,
    pub args: AttrArgs<'a>,
    pub span: Span,
}

/// What follows an attribute's path: nothing, a group with this delimiter, or `=` and tokens.
#[derive(Drop)]
pub enum AttrArgs<'a> {
    Absent,
    List(Delim, TokenStream<'a>),
    Value(Opaque<'a>),
}

/// A constant argument: a literal with a `-` before it or none, `true` or `false`, the tokens between `{` and `}`, or a name.
#[derive(Drop)]
pub enum ConstArg<'a> {
    Literal(bool, Literal<'a>),
    Bool(Ident<'a>),
    Block(TokenStream<'a>),
    Name(Ident<'a>),
}
