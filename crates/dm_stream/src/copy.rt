//! Copies of what owns memory.

ghost use Rattle.std.specs.Prelude.{◌≡◌, IfOk};

use crate::text::Text;
use crate::tokens::{Entry, Ident, Lifetime, Literal, Token};
use std::alloc::{AllocError, Global};

impl<'a> Ident<'a> {
    /// An equal value. A borrowed text stays borrowed.
    pub fn clone_in(&self, alloc: Global) -> Result<Ident<'a>, AllocError>
        ensures { IfOk result (λ r. r ≡ self.now) }
    {
        Ok(Ident {
            name: self.name.clone_in(alloc)?,
            raw: self.raw,
            span: self.span,
        })
    }
}

impl<'a> Lifetime<'a> {
    /// An equal value. A borrowed text stays borrowed.
    pub fn clone_in(&self, alloc: Global) -> Result<Lifetime<'a>, AllocError>
        ensures { IfOk result (λ r. r ≡ self.now) }
    {
        Ok(Lifetime {
            name: self.name.clone_in(alloc)?,
            span: self.span,
        })
    }
}

impl<'a> Literal<'a> {
    /// An equal value. A borrowed text stays borrowed.
    pub fn clone_in(&self, alloc: Global) -> Result<Literal<'a>, AllocError>
        ensures { IfOk result (λ r. r ≡ self.now) }
    {
        Ok(Literal {
            kind: self.kind,
            text: self.text.clone_in(alloc)?,
            span: self.span,
        })
    }
}

impl<'a> Token<'a> {
    /// An equal value. A borrowed text stays borrowed.
    pub fn clone_in(&self, alloc: Global) -> Result<Token<'a>, AllocError>
        ensures { IfOk result (λ r. r ≡ self.now) }
    {
        match self {
            Token::Ident(ident) => Ok(Token::Ident(ident.clone_in(alloc)?)),
            Token::Lifetime(lifetime) => Ok(Token::Lifetime(lifetime.clone_in(alloc)?)),
            Token::Punct(punct) => Ok(Token::Punct(*punct)),
            Token::Literal(literal) => Ok(Token::Literal(literal.clone_in(alloc)?)),
        }
    }
}

impl<'a> Entry<'a> {
    /// An equal value. A borrowed text stays borrowed.
    pub fn clone_in(&self, alloc: Global) -> Result<Entry<'a>, AllocError>
        ensures { IfOk result (λ r. r ≡ self.now) }
    {
        match self {
            Entry::Token(token) => Ok(Entry::Token(token.clone_in(alloc)?)),
            Entry::Open(delim, from, number) => Ok(Entry::Open(*delim, *from, *number)),
            Entry::Close(delim, upto) => Ok(Entry::Close(*delim, *upto)),
        }
    }
}

/// A copy of a list of entries.
pub fn copy_entries<'a>(alloc: Global, all: &[Entry<'a>]) -> Result<Vec<Entry<'a>>, AllocError>
    ensures { IfOk result (λ r. r.items ≡ all.now) }
{
    let mut found = Vec::new(alloc);
    for entry in all {
        let entry = entry.clone_in(alloc)?;
        found.push(entry)?;
    }
    Ok(found)
}
