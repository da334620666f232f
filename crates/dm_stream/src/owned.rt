//! Equal values that borrow nothing.

ghost use Rattle.std.specs.Prelude.{◌≡◌, IfOk};

use crate::tokens::{Entry, Ident, Lifetime, Literal, Token};
use std::alloc::{AllocError, Global};

impl<'a> Ident<'a> {
    /// An equal value that borrows nothing.
    pub fn into_owned<'b>(self, alloc: Global) -> Result<Ident<'b>, AllocError>
        ensures { IfOk result (λ r. r ≡ self.entry) }
    {
        let Ident { name, raw, span } = self;
        Ok(Ident {
            name: name.into_owned(alloc)?,
            raw,
            span,
        })
    }
}

impl<'a> Lifetime<'a> {
    /// An equal value that borrows nothing.
    pub fn into_owned<'b>(self, alloc: Global) -> Result<Lifetime<'b>, AllocError>
        ensures { IfOk result (λ r. r ≡ self.entry) }
    {
        let Lifetime { name, span } = self;
        Ok(Lifetime {
            name: name.into_owned(alloc)?,
            span,
        })
    }
}

impl<'a> Literal<'a> {
    /// An equal value that borrows nothing.
    pub fn into_owned<'b>(self, alloc: Global) -> Result<Literal<'b>, AllocError>
        ensures { IfOk result (λ r. r ≡ self.entry) }
    {
        let Literal { kind, text, span } = self;
        Ok(Literal {
            kind,
            text: text.into_owned(alloc)?,
            span,
        })
    }
}

impl<'a> Token<'a> {
    /// An equal value that borrows nothing.
    pub fn into_owned<'b>(self, alloc: Global) -> Result<Token<'b>, AllocError>
        ensures { IfOk result (λ r. r ≡ self.entry) }
    {
        match self {
            Token::Ident(ident) => Ok(Token::Ident(ident.into_owned(alloc)?)),
            Token::Lifetime(lifetime) => Ok(Token::Lifetime(lifetime.into_owned(alloc)?)),
            Token::Punct(punct) => Ok(Token::Punct(punct)),
            Token::Literal(literal) => Ok(Token::Literal(literal.into_owned(alloc)?)),
        }
    }
}

impl<'a> Entry<'a> {
    /// An equal value that borrows nothing.
    pub fn into_owned<'b>(self, alloc: Global) -> Result<Entry<'b>, AllocError>
        ensures { IfOk result (λ r. r ≡ self.entry) }
    {
        match self {
            Entry::Token(token) => Ok(Entry::Token(token.into_owned(alloc)?)),
            Entry::Open(delim, from, number) => Ok(Entry::Open(delim, from, number)),
            Entry::Close(delim, upto) => Ok(Entry::Close(delim, upto)),
        }
    }
}

/// The same entries, which borrow nothing.
pub fn own_entries<'b>(alloc: Global, all: Vec<Entry<'_>>) -> Result<Vec<Entry<'b>>, AllocError>
    ensures { IfOk result (λ r. r.items ≡ all.entry.items) }
{
    let mut found = Vec::with_capacity(alloc, all.len())?;
    for entry in all {
        let entry = entry.into_owned(alloc)?;
        found.push(entry)?;
    }
    Ok(found)
}
