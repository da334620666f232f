//! The outline of a text: its tokens with their kinds, and blanks between them. Joint puncts have `_`.

use dm_tokens::{Delim, Entry, Error, LitKind, Spacing, Token, lex};
use std::alloc::{AllocError, Global};

fn kind_name(kind: LitKind) -> &'static str {
    match kind {
        LitKind::Str => "str:",
        LitKind::RawStr => "rawstr:",
        LitKind::ByteStr => "bytes:",
        LitKind::RawByteStr => "rawbytes:",
        LitKind::CStr => "cstr:",
        LitKind::RawCStr => "rawcstr:",
        LitKind::Char => "char:",
        LitKind::Byte => "byte:",
        LitKind::Int => "int:",
    }
}

fn add_token(out: &mut String, token: &Token<'_>) -> Result<(), AllocError> {
    match token {
        Token::Ident(ident) => {
            out.push_str(if ident.raw { "raw:" } else { "" })?;
            out.push_str(ident.name.as_str())
        }
        Token::Lifetime(lifetime) => {
            out.push_str("life:")?;
            out.push_str(lifetime.name.as_str())
        }
        Token::Punct(punct) => {
            out.push(punct.ch)?;
            out.push_str(if punct.spacing == Spacing::Joint {
                "_"
            } else {
                ""
            })
        }
        Token::Literal(literal) => {
            out.push_str(kind_name(literal.kind))?;
            out.push_str(literal.text.as_str())
        }
    }
}

fn opener(delim: Delim) -> char {
    match delim {
        Delim::Paren => '(',
        Delim::Bracket => '[',
        Delim::Brace => '{',
    }
}

fn closer(delim: Delim) -> char {
    match delim {
        Delim::Paren => ')',
        Delim::Bracket => ']',
        Delim::Brace => '}',
    }
}

/// Adds a blank and an entry: a token, or a delimiter.
fn add_entry(out: &mut String, entry: &Entry<'_>) -> Result<(), AllocError> {
    out.push(' ')?;
    match entry {
        Entry::Token(token) => add_token(out, token),
        Entry::Open(delim, _, _) => out.push(opener(*delim)),
        Entry::Close(delim, _) => out.push(closer(*delim)),
    }
}

/// Adds the range of a delimiter, and of an opening one how many entries further its closing one stands.
fn add_place(out: &mut String, entry: &Entry<'_>) -> Result<(), AllocError> {
    match entry {
        Entry::Token(_) => Ok(()),
        Entry::Open(_, span, behind) => {
            let start = span.start;
            let end = span.end;
            write!(out, " {start}..{end} {behind}")
        }
        Entry::Close(_, span) => {
            let start = span.start;
            let end = span.end;
            write!(out, " {start}..{end}")
        }
    }
}

/// Without the blank in front.
fn listed(alloc: Global, entries: &str) -> Result<String, Error> {
    let list = entries.strip_prefix(' ').unwrap_or("no tokens");
    Ok(String::from_str(alloc, list)?)
}

/// The entries of a text, with the places of delimiters where these are asked for.
fn entries(alloc: Global, text: &str, with_places: bool) -> Result<String, Error> {
    let stream = lex(alloc, text)?;
    let mut out = String::new(alloc);
    for entry in stream.entries() {
        add_entry(&mut out, entry)?;
        if with_places {
            add_place(&mut out, entry)?;
        }
    }
    listed(alloc, out.as_str())
}

/// The outline of a text.
pub(crate) fn outline(alloc: Global, text: &str) -> Result<String, Error> {
    entries(alloc, text, false)
}

/// The entries of a text, with the places of delimiters.
pub(crate) fn places(alloc: Global, text: &str) -> Result<String, Error> {
    entries(alloc, text, true)
}
