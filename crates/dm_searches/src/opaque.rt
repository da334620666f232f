//! A parameter, by its sort and its name, among lifetimes and among tokens that are not read.
#![tactic(auto, using(crate::proofs::Entries::in_trees_flat))]

ghost use Rattle.std.specs.Prelude.{◌≡◌};
ghost use Rattle.std.specs.List.{list_any};
ghost use Rattle.dm_searches.specs.Mentions as spec;

use crate::names::Sort;
use dm_ast::{AttrArgs, Attribute, ConstArg};
use dm_stream::{Entry, Ident, Lifetime, Punctuated, Token, TokenStream};

/// An identifier among tokens that are not read.
fn is_ident(ident: &Ident<'_>, name: &str, sort: Sort) -> bool
    ensures { result ≡ spec.is_ident sort name.now ident.now }
{
    match sort {
        Sort::Ty | Sort::Const => ident.name.as_str() == name,
        Sort::Lifetime => false,
    }
}

pub fn is_lifetime(lifetime: &Lifetime<'_>, name: &str, sort: Sort) -> bool
    ensures { result ≡ spec.is_lifetime sort name.now lifetime.now }
{
    match sort {
        Sort::Ty | Sort::Const => false,
        Sort::Lifetime => lifetime.name.as_str() == name,
    }
}

/// Whether there is a lifetime, and it is this parameter.
pub fn in_lifetime(lifetime: &Option<Lifetime<'_>>, name: &str, sort: Sort) -> bool
    ensures { result ≡ spec.in_lifetime sort name.now lifetime.now }
{
    match lifetime {
        None => false,
        Some(lifetime) => is_lifetime(lifetime, name, sort),
    }
}

fn in_lifetimes(all: &[Lifetime<'_>], name: &str, sort: Sort) -> bool
    ensures { result ≡ list_any (spec.is_lifetime sort name.now) all.now }
{
    all.iter().any(|item| is_lifetime(item, name, sort))
}

/// In the lifetimes of a `for`.
pub fn in_for(lifetimes: &Option<Punctuated<Lifetime<'_>>>, name: &str, sort: Sort) -> bool
    ensures { result ≡ spec.in_for sort name.now lifetimes.now }
{
    match lifetimes {
        None => false,
        Some(all) => in_lifetimes(all.items.as_slice(), name, sort),
    }
}

fn is_token(token: &Token<'_>, name: &str, sort: Sort) -> bool
    ensures { result ≡ spec.is_token sort name.now token.now }
{
    match token {
        Token::Ident(ident) => is_ident(ident, name, sort),
        Token::Lifetime(lifetime) => is_lifetime(lifetime, name, sort),
        Token::Punct(_) => false,
        Token::Literal(_) => false,
    }
}

fn is_entry(entry: &Entry<'_>, name: &str, sort: Sort) -> bool
    ensures { result ≡ spec.is_entry sort name.now entry.now }
{
    match entry {
        Entry::Token(token) => is_token(token, name, sort),
        Entry::Open(_, _, _) => false,
        Entry::Close(_, _) => false,
    }
}

fn in_entries(all: &[Entry<'_>], name: &str, sort: Sort) -> bool
    ensures { result ≡ list_any (spec.is_entry sort name.now) all.now }
{
    all.iter().any(|item| is_entry(item, name, sort))
}

/// In tokens that are not read, at any depth.
pub fn in_tokens(tokens: &TokenStream<'_>, name: &str, sort: Sort) -> bool
    ensures { result ≡ spec.in_trees sort name.now tokens.now.trees }
{
    in_entries(tokens.entries(), name, sort)
}

/// In a constant argument.
pub fn in_constant(constant: &ConstArg<'_>, name: &str, sort: Sort) -> bool
    ensures { result ≡ spec.in_constant sort name.now constant.now }
{
    match constant {
        ConstArg::Literal(_, _) => false,
        ConstArg::Bool(ident) => is_ident(ident, name, sort),
        ConstArg::Block(tokens) => in_tokens(tokens, name, sort),
        ConstArg::Name(ident) => is_ident(ident, name, sort),
    }
}

fn in_attribute(attribute: &Attribute<'_>, name: &str, sort: Sort) -> bool
    ensures { result ≡ spec.in_attribute sort name.now attribute.now }
{
    match &attribute.args {
        AttrArgs::Absent => false,
        AttrArgs::List(_, tokens) => in_tokens(tokens, name, sort),
        AttrArgs::Value(value) => in_tokens(&value.tokens, name, sort),
    }
}

/// In attributes.
pub fn in_attributes(all: &[Attribute<'_>], name: &str, sort: Sort) -> bool
    ensures { result ≡ spec.in_attributes sort name.now all.now }
{
    all.iter().any(|item| in_attribute(item, name, sort))
}
