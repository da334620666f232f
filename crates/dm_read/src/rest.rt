//! Trees that are kept as they are.
#![tactic(auto)]

ghost use Rattle.std.specs.Prelude.{◌≡◌, ◌≤◌, IfOk};
ghost use Rattle.dm_stream.specs.Cursors.{left, sound, SharesEnd};
ghost use Rattle.dm_ast.specs.Readers as spec;
ghost use Rattle.dm_ast.specs.Readers.{place, Reads};
ghost use Rattle.dm_read.specs.Deep as deep;

use crate::token::{Found, too_deep};
use dm_stream::{Cursor, DEEPEST, Entry, Span, Token, TokenStream};
use std::alloc::Global;

/// The range of an entry.
pub fn span_of(entry: &Entry<'_>) -> Span
    ensures { result ≡ spec.entry_span entry.now }
{
    match entry {
        Entry::Token(token) => match token {
            Token::Ident(ident) => ident.span,
            Token::Punct(punct) => punct.span,
            Token::Literal(literal) => literal.span,
            Token::Lifetime(lifetime) => lifetime.span,
        },
        Entry::Open(_, from, _) => *from,
        Entry::Close(_, upto) => *upto,
    }
}

fn level_at(level: usize, entry: &Entry<'_>) -> usize
    ensures { result ≡ deep.level_at level entry.now }
{
    match entry {
        Entry::Token(_) => level,
        Entry::Open(_, _, _) => level,
        Entry::Close(_, _) => level.saturating_sub(1),
    }
}

fn level_after(level: usize, entry: &Entry<'_>) -> usize
    requires { deep.level_at level entry.now ≤ 128 }
    ensures { result ≡ deep.level_after level entry.now }
{
    match entry {
        Entry::Token(_) => level,
        Entry::Open(_, _, _) => level + 1,
        Entry::Close(_, _) => level.saturating_sub(1),
    }
}

/// The range of the first entry at a level that is too deep, where the first of them stands at `level`.
#[tactic(auto, using(crate::proofs::Depths::depth_steps))]
fn first_deep(entries: &[Entry<'_>], level: usize) -> Option<Span>
    ensures { result ≡ deep.deep_entry level entries.now }
{
    let mut at = level;
    for entry in entries {
        if level_at(at, entry) > DEEPEST {
            return Some(span_of(entry));
        }
        at = level_after(at, entry);
    }
    None
}

/// All that is left.
#[tactic(auto, using(crate::proofs::Depths::rest_steps))]
pub fn rest_of<'t, 'a>(
    alloc: Global,
    level: usize,
    c: Cursor<'t, 'a>,
) -> Found<'t, 'a, TokenStream<'a>>
    requires { sound c }
    ensures reads { Reads (λ s. s) (spec.read_rest (place level c.entry) (left c.entry)) result }
    ensures place { IfOk result (λ r. SharesEnd c.entry r.1) }
{
    if let Some(span) = first_deep(c.entries(), level) {
        return Err(too_deep(span));
    }
    let kept = TokenStream::from_cursor(alloc, c)?;
    Ok((kept, c.behind_all()))
}
