//! Patterns.

use dm_ast::Path;
use dm_stream::{Ident, Literal, Seq};

/// How a name in a pattern binds: `x`, `ref x` or `ref mut x`.
#[derive(Clone, Copy, Debug, PartialEq, Eq)]
pub enum Binding {
    Plain,
    Ref,
    RefMut,
}

/// A pattern. The truth value of `Named` says whether `..` stands behind its fields.
#[cycle(pattern)]
pub enum Pattern<'a> {
    /// `_`
    Wild,
    /// `x`
    Bind(Binding, Ident<'a>),
    /// `"text"`
    Str(Literal<'a>),
    /// `P`, of two segments or more
    Path(Path<'a>),
    /// `P(a, b,)`
    Tuple(Path<'a>, Seq<Pattern<'a>>),
    /// `P { x: a, y: b, .. }`
    Named(Path<'a>, Seq<NamedPattern<'a>>, bool),
    /// `(a, b)`
    Pair(Box<Pattern<'a>>, Box<Pattern<'a>>),
}

impl Drop for Pattern<'_> {
    #[cycle(pattern)]
    fn drop(self) {
        match self {
            Self::Wild => {}
            Self::Bind(_, _) => {}
            Self::Str(_) => {}
            Self::Path(_) => {}
            Self::Tuple(_, _) => {}
            Self::Named(_, _, _) => {}
            Self::Pair(_, _) => {}
        }
    }
}

/// A field of a pattern in braces.
#[cycle(pattern)]
#[derive(Drop)]
pub struct NamedPattern<'a> {
    pub name: Ident<'a>,
    pub pattern: Pattern<'a>,
}
