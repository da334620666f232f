//! What the heads of rows ask for.

use crate::alike::are_alike;
use crate::facts::{Fact, declared};
use crate::fronts::{Front, begins_with, is_read};
use crate::metas::word_as_path;
use dm_rows::{Answers, named, printed, unknown};
use dm_syntax::Opaque;
use dm_tokens::{Error, lex};
use std::alloc::{AllocError, Global};

/// What a row asks for.
#[derive(Clone, Copy)]
enum Call {
    /// This of the declaration that the text is.
    Declaration(Fact),
    /// The declaration `struct S { a : TYPE }`, of this type, or the kind of its refusal.
    Field,
    /// What the text begins with, and what is left.
    Front(Front),
    /// Nothing but whether the text begins with it.
    Reads(Front),
    /// The path that a path or keyword is.
    AsPath,
    /// Whether two types are spelled alike.
    Alike,
    /// Tokens that aren't read.
    Opaque,
}

const CALLS: &[(&str, Call)] = &[
    ("decl", Call::Declaration(Fact::ComesBack)),
    ("field", Call::Field),
    ("names", Call::Declaration(Fact::Names)),
    ("ranges", Call::Declaration(Fact::Ranges)),
    ("lifetimes", Call::Declaration(Fact::Lifetimes)),
    ("segments", Call::Declaration(Fact::Segments)),
    ("arguments", Call::Declaration(Fact::Arguments)),
    ("visibility", Call::Declaration(Fact::Visibility)),
    ("parameters", Call::Declaration(Fact::Parameters)),
    ("parts", Call::Declaration(Fact::Parts)),
    ("type", Call::Front(Front::Type)),
    ("path", Call::Front(Front::Path)),
    ("predicates", Call::Front(Front::Predicates)),
    ("word", Call::Front(Front::Word)),
    ("list", Call::Front(Front::List)),
    ("meta", Call::Front(Front::Meta)),
    ("nested", Call::Front(Front::Nested)),
    ("reads decl", Call::Reads(Front::Declaration)),
    ("reads type", Call::Reads(Front::Type)),
    ("reads path", Call::Reads(Front::Path)),
    ("reads predicates", Call::Reads(Front::Predicates)),
    ("reads word", Call::Reads(Front::Word)),
    ("reads list", Call::Reads(Front::List)),
    ("reads meta", Call::Reads(Front::Meta)),
    ("reads nested", Call::Reads(Front::Nested)),
    ("as path", Call::AsPath),
    ("alike", Call::Alike),
    ("opaque", Call::Opaque),
];

/// `struct S { a : TYPE }`.
fn with_field(alloc: Global, ty: &str) -> Result<String, AllocError> {
    let mut text = String::new(alloc);
    text.push_str("struct S { a : ")?;
    text.push_str(ty)?;
    text.push_str(" }")?;
    Ok(text)
}

/// What a text is that is read as a declaration.
fn declaration(alloc: Global, text: &str, fact: Fact) -> Result<String, Error> {
    let stream = lex(alloc, text)?;
    declared(&stream, alloc, fact)
}

/// The declaration of a field of this type, or the kind of its refusal.
fn field(alloc: Global, ty: &str) -> Result<String, Error> {
    let text = with_field(alloc, ty)?;
    match declaration(alloc, text.as_str(), Fact::ComesBack) {
        Ok(told) => Ok(told),
        Err(Error::NoMemory) => Err(Error::NoMemory),
        Err(Error::Refused(refusal)) => {
            let kind = refusal.kind.name();
            Ok(format!(in alloc; "refused: {kind}")?)
        }
    }
}

/// Tokens that aren't read.
fn opaque(alloc: Global, text: &str) -> Result<String, Error> {
    let tokens = lex(alloc, text)?;
    printed(&Opaque { tokens }, alloc)
}

fn at_front(alloc: Global, text: &str, front: Front) -> Result<String, Error> {
    let stream = lex(alloc, text)?;
    begins_with(&stream, alloc, front)
}

fn reads(alloc: Global, text: &str, front: Front) -> Result<String, Error> {
    let stream = lex(alloc, text)?;
    is_read(&stream, alloc, front)
}

fn as_path(alloc: Global, text: &str) -> Result<String, Error> {
    let stream = lex(alloc, text)?;
    word_as_path(&stream, alloc)
}

/// The rows of this program.
pub(crate) struct SyntaxRows;

impl Answers for SyntaxRows {
    fn answer(alloc: Global, head: &str, text: &str) -> Result<String, Error> {
        match named(CALLS, head) {
            None => unknown(alloc),
            Some(Call::Declaration(fact)) => declaration(alloc, text, fact),
            Some(Call::Field) => field(alloc, text),
            Some(Call::Front(front)) => at_front(alloc, text, front),
            Some(Call::Reads(front)) => reads(alloc, text, front),
            Some(Call::AsPath) => as_path(alloc, text),
            Some(Call::Alike) => are_alike(alloc, text),
            Some(Call::Opaque) => opaque(alloc, text),
        }
    }
}
