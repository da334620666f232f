//! Whether parts without types are spelled alike.
#![tactic(auto, using(crate::proofs::Told::told_steps))]

ghost use Rattle.std.specs.Prelude.{◌≡◌, Bool};
ghost use Rattle.dm_same.specs.SameTypes as same;

use dm_ast::{AttrArgs, Attribute, ConstArg, PlainPath};
use dm_stream::{Entry, Ident, Lifetime, Literal, Punctuated, Token, TokenStream};

/// What has the same spelling or another.
pub trait Alike<Other> {
    /// Which values are spelled alike.
    ghost same: { Self → Other → Bool };

    fn alike(&self, other: &Other) -> bool
        ensures { result ≡ same self.now other.now };
}

/// Whether items of two lists are spelled alike, one by one.
pub fn all_alike<T: Alike<U>, U>(a: &[T], b: &[U]) -> bool
    ensures { result ≡ same.all_same T.same a.now b.now }
{
    if a.len() != b.len() {
        return false;
    }
    for (i, item) in a.iter().enumerate() {
        if !item.alike(&b[i]) {
            return false;
        }
    }
    true
}

/// Whether what may be missing is spelled alike.
pub fn options_alike<T: Alike<U>, U>(a: &Option<T>, b: &Option<U>) -> bool
    ensures { result ≡ same.same_option T.same a.now b.now }
{
    match (a, b) {
        (None, None) => true,
        (Some(x), Some(y)) => x.alike(y),
        (None, Some(_)) => false,
        (Some(_), None) => false,
    }
}

pub fn flags_alike(a: bool, b: bool) -> bool
    ensures { result ≡ same.same_flag a b }
{
    if a { b } else { !b }
}

impl<T: Alike<U>, U> Alike<Punctuated<U>> for Punctuated<T> {
    ghost same = { same.same_list T.same };

    fn alike(&self, other: &Punctuated<U>) -> bool {
        all_alike(self.items.as_slice(), other.items.as_slice())
            && flags_alike(self.trailing, other.trailing)
    }
}

impl<T: Alike<U>, U> Alike<Option<U>> for Option<T> {
    ghost same = { same.same_option T.same };

    fn alike(&self, other: &Option<U>) -> bool {
        options_alike(self, other)
    }
}

impl<'a, 'b> Alike<Ident<'b>> for Ident<'a> {
    ghost same = { same.same_name };

    fn alike(&self, other: &Ident<'b>) -> bool {
        flags_alike(self.raw, other.raw) && self.name.as_str() == other.name.as_str()
    }
}

impl<'a, 'b> Alike<Lifetime<'b>> for Lifetime<'a> {
    ghost same = { same.same_lifetime };

    fn alike(&self, other: &Lifetime<'b>) -> bool {
        self.name.as_str() == other.name.as_str()
    }
}

impl<'a, 'b> Alike<Literal<'b>> for Literal<'a> {
    ghost same = { same.same_literal };

    fn alike(&self, other: &Literal<'b>) -> bool {
        self.kind == other.kind && self.text.as_str() == other.text.as_str()
    }
}

impl<'a, 'b> Alike<Token<'b>> for Token<'a> {
    ghost same = { same.same_token };

    fn alike(&self, other: &Token<'b>) -> bool {
        match (self, other) {
            (Token::Ident(x), Token::Ident(y)) => x.alike(y),
            (Token::Lifetime(x), Token::Lifetime(y)) => x.alike(y),
            (Token::Literal(x), Token::Literal(y)) => x.alike(y),
            (Token::Punct(x), Token::Punct(y)) => x.ch == y.ch && x.spacing == y.spacing,
            _ => false,
        }
    }
}

impl<'a, 'b> Alike<Entry<'b>> for Entry<'a> {
    ghost same = { same.same_entry };

    fn alike(&self, other: &Entry<'b>) -> bool {
        match (self, other) {
            (Entry::Token(x), Entry::Token(y)) => x.alike(y),
            (Entry::Open(d, _, _), Entry::Open(e, _, _)) => *d == *e,
            (Entry::Close(d, _), Entry::Close(e, _)) => *d == *e,
            _ => false,
        }
    }
}

impl<'a, 'b> Alike<TokenStream<'b>> for TokenStream<'a> {
    ghost same = { same.same_stream };

    fn alike(&self, other: &TokenStream<'b>) -> bool {
        all_alike(self.entries(), other.entries())
    }
}

impl<'a, 'b> Alike<PlainPath<'b>> for PlainPath<'a> {
    ghost same = { same.same_plain };

    fn alike(&self, other: &PlainPath<'b>) -> bool {
        flags_alike(self.leading_colon, other.leading_colon)
            && all_alike(self.segments.as_slice(), other.segments.as_slice())
    }
}

impl<'a, 'b> Alike<AttrArgs<'b>> for AttrArgs<'a> {
    ghost same = { same.same_args };

    fn alike(&self, other: &AttrArgs<'b>) -> bool {
        match (self, other) {
            (AttrArgs::Absent, AttrArgs::Absent) => true,
            (AttrArgs::List(d, x), AttrArgs::List(e, y)) => *d == *e && x.alike(y),
            (AttrArgs::Value(x), AttrArgs::Value(y)) => x.tokens.alike(&y.tokens),
            _ => false,
        }
    }
}

impl<'a, 'b> Alike<Attribute<'b>> for Attribute<'a> {
    ghost same = { same.same_attribute };

    fn alike(&self, other: &Attribute<'b>) -> bool {
        self.path.alike(&other.path) && self.args.alike(&other.args)
    }
}

impl<'a, 'b> Alike<ConstArg<'b>> for ConstArg<'a> {
    ghost same = { same.same_constant };

    fn alike(&self, other: &ConstArg<'b>) -> bool {
        match (self, other) {
            (ConstArg::Literal(m, x), ConstArg::Literal(n, y)) => {
                flags_alike(*m, *n) && x.alike(y)
            }
            (ConstArg::Bool(x), ConstArg::Bool(y)) => x.alike(y),
            (ConstArg::Block(x), ConstArg::Block(y)) => x.alike(y),
            (ConstArg::Name(x), ConstArg::Name(y)) => x.alike(y),
            _ => false,
        }
    }
}
