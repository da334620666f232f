//! Lexemes as they are nested in groups (Rust Reference, "Macros", token trees), and the limit on that in docs/FORMATS.md.

ghost use Rattle.std.specs.Prelude.{◌≡◌, ◌<◌, [], None, slice_set, IfOk, MatchOption};
ghost use Rattle.std.specs.Vec.{vec_len};
ghost use Rattle.dm_lexer.specs.Nesting.{IsInnermost, IsNested, IsNesting, Takes, deeper, none_deep};
ghost use Rattle.dm_stream.specs.Trees.{no_trees};
ghost use Rattle.dm_lexer.specs.declared.lexing.Lexeme.TheVariants as lexeme;
ghost use Rattle.dm_lexer.specs.declared.nesting.Nesting.{Nesting};

use crate::lexing::Lexeme;
use dm_stream::{Delim, Entry, Made, Span, Token, span_of};
use std::alloc::{AllocError, Global};

/// A group that is not closed yet, and the place of its first entry.
#[derive(Clone, Copy)]
pub struct OpenGroup {
    pub delim: Delim,
    pub from: Span,
    pub place: usize,
}

/// In how many groups a token or delimiter may stand, and the range of the first one that stands in more.
#[derive(Clone, Copy)]
pub struct Depth {
    pub deepest: usize,
    pub first: Option<Span>,
}

/// The entries that were read so far, the groups among them that are open, and the first one that is too deep.
#[derive(Drop)]
pub struct Nesting<'a> {
    pub entries: Vec<Entry<'a>>,
    pub opened: Vec<OpenGroup>,
    pub deep: Depth,
}

/// What takes the lexemes of a text one after another.
pub trait TakesLexemes<'a>: Drop {
    /// How they are nested.
    ghost nesting: { Self → Nesting };

    /// None of them yet. A token or delimiter may stand in `deepest` groups.
    fn none(alloc: Global, deepest: usize) -> Self
        ensures nested { IsNesting (nesting result) [] no_trees }
        ensures deep { (nesting result).deep ≡ none_deep deepest };

    /// Takes the next lexeme, or gives its range where it closes no open group.
    fn take(&mut self, next: Lexeme<'a>) -> Result<Option<Span>, AllocError>
        requires { IsNested (nesting self.old) }
        ensures { IfOk result (λ s. Takes s (nesting self.old) (nesting self.new) next.entry) };
}

impl<'a> Nesting<'a> {
    /// The range of the innermost opener that is open.
    pub fn innermost(&self) -> Option<Span>
        ensures { MatchOption result (self.now.opened.items ≡ []) (λ s. IsInnermost self.now.opened.items s) }
    {
        match self.opened.last() {
            Some(open) => Some(open.from),
            None => None,
        }
    }

    fn add(&mut self, item: Token<'a>) -> Made<()>
        ensures { IfOk result (λ _. Takes None self.old self.new (lexeme.Token item.entry)) }
    {
        self.deep = deeper_of(self.deep, self.opened.len(), span_of(&item));
        self.entries.push(Entry::Token(item))?;
        Ok(())
    }

    fn open(&mut self, delim: Delim, from: Span) -> Made<()>
        ensures { IfOk result (λ _. Takes None self.old self.new (lexeme.Open delim from)) }
    {
        self.deep = deeper_of(self.deep, self.opened.len(), from);
        let place = self.entries.len();
        self.entries.push(Entry::Open(delim, from, 0))?;
        self.opened.push(OpenGroup { delim, from, place })?;
        Ok(())
    }

    fn close(&mut self, delim: Delim, upto: Span) -> Made<Option<Span>>
        requires { IsNested self.old }
        ensures { IfOk result (λ s. Takes s self.old self.new (lexeme.Close delim upto)) }
    {
        let Some(innermost) = self.opened.pop() else {
            return Ok(Some(upto));
        };
        if innermost.delim != delim {
            return Ok(Some(upto));
        }
        self.deep = deeper_of(self.deep, self.opened.len(), upto);
        let count = self.entries.len() - innermost.place;
        let opener = Entry::Open(innermost.delim, innermost.from, count);
        put(&mut self.entries, innermost.place, opener);
        self.entries.push(Entry::Close(delim, upto))?;
        Ok(None)
    }
}

impl<'a> TakesLexemes<'a> for Nesting<'a> {
    ghost nesting = { λ n. n };

    fn none(alloc: Global, deepest: usize) -> Nesting<'a> {
        Nesting {
            entries: Vec::new(alloc),
            opened: Vec::new(alloc),
            deep: Depth {
                deepest,
                first: None,
            },
        }
    }

    fn take(&mut self, next: Lexeme<'a>) -> Result<Option<Span>, AllocError> {
        match next {
            Lexeme::Token(token) => {
                self.add(token)?;
                Ok(None)
            }
            Lexeme::Open(delim, from) => {
                self.open(delim, from)?;
                Ok(None)
            }
            Lexeme::Close(delim, upto) => self.close(delim, upto),
        }
    }
}

/// What takes lexemes of any text, whose characters it copies.
#[derive(Drop)]
pub struct Owning<'b> {
    pub alloc: Global,
    pub nesting: Nesting<'b>,
}

impl<'a, 'b> TakesLexemes<'a> for Owning<'b> {
    ghost nesting = { λ o. o.nesting };

    fn none(alloc: Global, deepest: usize) -> Owning<'b> {
        Owning {
            alloc,
            nesting: TakesLexemes::none(alloc, deepest),
        }
    }

    fn take(&mut self, next: Lexeme<'a>) -> Result<Option<Span>, AllocError> {
        let next = next.into_owned(self.alloc)?;
        self.nesting.take(next)
    }
}

/// The first place that is too deep, with one more, which stands inside `depth` groups.
fn deeper_of(deep: Depth, depth: usize, here: Span) -> Depth
    ensures { result ≡ deeper deep depth here }
{
    let Depth { deepest, first } = deep;
    match first {
        Some(span) => Depth {
            deepest,
            first: Some(span),
        },
        None if deepest < depth => Depth {
            deepest,
            first: Some(here),
        },
        None => Depth {
            deepest,
            first: None,
        },
    }
}

/// Puts an entry in place of another.
fn put<'a>(entries: &mut Vec<Entry<'a>>, place: usize, item: Entry<'a>)
    requires { place < vec_len entries.old }
    ensures { entries.new.items ≡ slice_set entries.old.items place item.entry }
{
    entries[place] = item;
}
