ghost use Rattle.std.specs.Prelude.{◌≡◌, OnOk, OnErr, IfOk, MatchOption, MatchResult, ◌++◌, ◌∷◌, ◌+◌, [], length};
ghost use Rattle.dm_stream.specs.Trees.{no_trees, token, group, join, flatten, unflatten};
ghost use Rattle.dm_stream.specs.declared.tokens.Entry.TheVariants as entry;
ghost use Rattle.dm_stream.specs.Cursors.{left, end_of, sound, trees_in, piece_end, sound_piece, IsFlat};
ghost use Rattle.dm_stream.specs.LastAlone as spec;
ghost use Rattle.dm_stream.specs.LastAlone.{last_alone, IsLastPunct};
ghost use Rattle.dm_stream.specs.Layout.{nowhere};

use crate::copy::copy_entries;
use crate::cursor::{Cursor, Piece};
use crate::error::Made;
use crate::owned::own_entries;
use crate::tokens::{Delim, Entry, Punct, Spacing, Span, Token};
use std::alloc::{AllocError, Global};
use std::marker::Model;

/// A list of token trees, with its end, a place in the text. It is kept flat: what `entries` lends.
///
/// The end is the length of the text that was read, for the inside of a group the start of the closing delimiter, and
/// 0 for a list that `new` made.
#[derive(Debug, Drop)]
pub struct TokenStream<'a> {
    entries: Vec<Entry<'a>>,
    limit: usize,
}

impl<'a> Model for TokenStream<'a> {
    ghost use Rattle.std.specs.Prelude.{◌≡◌};
    ghost use Rattle.dm_stream.specs.Trees.{Stream, coded_stream, flatten, unflatten};

    ghost Value = { Stream };

    ghost coded = { coded_stream };

    ghost view = { λ s. record { trees = unflatten s.entries.items; limit = s.limit } };

    ghost invariant = { λ s. flatten (unflatten s.entries.items) ≡ s.entries.items };
}

impl<'a> TokenStream<'a> {
    /// The empty list. It keeps the allocator for what is added.
    pub fn new(alloc: Global) -> TokenStream<'a>
        ensures trees { result.trees ≡ no_trees }
        ensures limit { result.limit ≡ 0 }
    {
        TokenStream {
            entries: Vec::new(alloc),
            limit: 0,
        }
    }

    /// The allocator that the list was made with.
    pub fn allocator(&self) -> Global {
        *self.entries.allocator()
    }

    /// Adds a token at the end, or hands it back for want of memory.
    pub fn push(&mut self, item: Token<'a>) -> Result<(), Token<'a>>
        ensures pushed { OnOk result (self.new.trees ≡ join self.old.trees (token item.entry no_trees)) }
        ensures refused { MatchResult result (λ _. Unit {0}) (λ back. back ≡ item.entry) }
        ensures unchanged { OnErr result (self.new.trees ≡ self.old.trees) }
        ensures limit { self.new.limit ≡ self.old.limit }
    {
        match self.entries.push(Entry::Token(item)) {
            Ok(()) => Ok(()),
            Err(failed) => match failed.value {
                Entry::Token(back) => Err(back),
                _ => unreachable!(),
            },
        }
    }

    /// Adds a token at the end, or drops it for want of memory.
    pub fn add(&mut self, item: Token<'a>) -> Result<(), AllocError>
        ensures added { OnOk result (self.new.trees ≡ join self.old.trees (token item.entry no_trees)) }
        ensures unchanged { OnErr result (self.new.trees ≡ self.old.trees) }
        ensures limit { self.new.limit ≡ self.old.limit }
    {
        match self.push(item) {
            Ok(()) => Ok(()),
            Err(_) => Err(AllocError),
        }
    }

    /// Adds a group at the end. Both delimiters have the range 0..0, and the end of `inner` is dropped.
    pub fn push_group(&mut self, delim: Delim, inner: TokenStream<'a>) -> Result<(), AllocError>
        ensures pushed { OnOk result (self.new.trees ≡ join self.old.trees (group delim nowhere inner.entry.trees nowhere no_trees)) }
        ensures unchanged { OnErr result (self.new.trees ≡ self.old.trees) }
        ensures limit { self.new.limit ≡ self.old.limit }
    {
        let TokenStream { entries, limit: _ } = inner;
        let nowhere = Span { start: 0, end: 0 };
        append_group(&mut self.entries, delim, nowhere, entries, nowhere)
    }

    /// Adds a run of trees at the end.
    pub fn extend(&mut self, piece: Piece<'_, 'a>) -> Result<(), AllocError>
        requires { sound_piece piece }
        ensures pushed { OnOk result (self.new.trees ≡ join self.old.trees (trees_in piece.entry)) }
        ensures unchanged { OnErr result (self.new.trees ≡ self.old.trees) }
        ensures limit { self.new.limit ≡ self.old.limit }
    {
        let alloc = *self.entries.allocator();
        append_copies(alloc, &mut self.entries, piece.entries)
    }

    /// Makes a last punct joint to nothing.
    pub fn unjoin(&mut self)
        ensures trees { self.new.trees ≡ last_alone self.old.trees }
        ensures limit { self.new.limit ≡ self.old.limit }
    {
        unjoin_last(&mut self.entries);
    }

    /// An equal value. Borrowed texts stay borrowed.
    pub fn clone_in(&self, alloc: Global) -> Result<TokenStream<'a>, AllocError>
        ensures { IfOk result (λ r. r ≡ self.now) }
    {
        Ok(TokenStream {
            entries: copy_entries(alloc, self.entries.as_slice())?,
            limit: self.limit,
        })
    }

    /// An equal value that borrows nothing. Owned texts are taken over.
    pub fn into_owned<'b>(self, alloc: Global) -> Result<TokenStream<'b>, AllocError>
        ensures { IfOk result (λ r. r ≡ self.entry) }
    {
        let TokenStream { entries, limit } = self;
        Ok(TokenStream {
            entries: own_entries(alloc, entries)?,
            limit,
        })
    }

    /// A list of its own of what a cursor has left, with its end.
    pub fn from_cursor(alloc: Global, from: Cursor<'_, 'a>) -> Result<TokenStream<'a>, AllocError>
        requires { sound from }
        ensures trees { IfOk result (λ r. r.trees ≡ left from.entry) }
        ensures limit { IfOk result (λ r. r.limit ≡ end_of from.entry) }
    {
        Ok(TokenStream {
            entries: copy_entries(alloc, from.entries)?,
            limit: from.limit,
        })
    }

    /// The stream of a finished flat form.
    pub fn from_entries(entries: Vec<Entry<'a>>, limit: usize) -> TokenStream<'a>
        requires { flatten (unflatten entries.items) ≡ entries.items }
        ensures trees { result.trees ≡ unflatten entries.entry.items }
        ensures limit { result.limit ≡ limit }
    {
        TokenStream { entries, limit }
    }

    /// The list's own vector, in which each group is an `Open`, its inside and a `Close`.
    pub fn entries(&self) -> &[Entry<'a>]
        ensures { result.now ≡ flatten self.now.trees }
    {
        self.entries.as_slice()
    }

    /// The place before the first tree.
    pub fn cursor(&self) -> Cursor<'_, 'a>
        ensures left { left result ≡ self.now.trees }
        ensures sound { sound result }
        ensures limit { end_of result ≡ self.now.limit }
    {
        Cursor {
            entries: self.entries.as_slice(),
            limit: self.limit,
        }
    }

    /// The whole list as a run of trees.
    pub fn piece(&self) -> Piece<'_, 'a>
        ensures trees { trees_in result ≡ self.now.trees }
        ensures sound { sound_piece result }
        ensures limit { piece_end result ≡ self.now.limit }
    {
        Piece {
            entries: self.entries.as_slice(),
            limit: self.limit,
        }
    }
}

/// Adds the flat form of a group, or changes nothing for want of memory.
fn append_group<'a>(
    entries: &mut Vec<Entry<'a>>,
    delim: Delim,
    from: Span,
    mut inside: Vec<Entry<'a>>,
    upto: Span,
) -> Made<()>
    ensures ok { OnOk result (entries.new.items ≡ entries.old.items ++ (entry.Open delim from (length inside.entry.items + 1) ∷ (inside.entry.items ++ entry.Close delim upto ∷ []))) }
    ensures err { OnErr result (entries.new.items ≡ entries.old.items) }
{
    inside.push(Entry::Close(delim, upto))?;
    let number = inside.len();
    let Some(room) = inside.len().checked_add(1) else {
        return Err(AllocError);
    };
    entries.reserve(room)?;
    entries.push(Entry::Open(delim, from, number))?;
    entries.append(&mut inside)
}

/// Adds copies of entries, or changes nothing for want of memory.
fn append_copies<'a>(alloc: Global, entries: &mut Vec<Entry<'a>>, more: &[Entry<'a>]) -> Made<()>
    ensures ok { OnOk result (entries.new.items ≡ entries.old.items ++ more.now) }
    ensures err { OnErr result (entries.new.items ≡ entries.old.items) }
{
    let mut copies = copy_entries(alloc, more)?;
    entries.append(&mut copies)
}

/// The last entry where it is a punct, and its place.
fn last_punct(entries: &[Entry<'_>]) -> Option<(Punct, usize)>
    requires { IsFlat entries.now }
    ensures { MatchOption result (last_alone (unflatten entries.now) ≡ unflatten entries.now) (λ r. IsLastPunct entries.now r.0 r.1) }
{
    let (last, front) = entries.split_last()?;
    let punct = punct_in(last)?;
    Some((punct, front.len()))
}

/// The punct that an entry is.
fn punct_in(entry: &Entry<'_>) -> Option<Punct>
    ensures { result ≡ spec.punct_in entry.now }
{
    match entry {
        Entry::Token(Token::Punct(punct)) => Some(*punct),
        _ => None,
    }
}

/// Makes a last punct joint to nothing.
fn unjoin_last(entries: &mut Vec<Entry<'_>>)
    requires { IsFlat entries.old.items }
    ensures flat { IsFlat entries.new.items }
    ensures trees { unflatten entries.new.items ≡ last_alone (unflatten entries.old.items) }
{
    if let Some((punct, at)) = last_punct(entries.as_slice()) {
        entries[at] = Entry::Token(Token::Punct(Punct {
            ch: punct.ch,
            spacing: Spacing::Alone,
            span: punct.span,
        }));
    }
}
