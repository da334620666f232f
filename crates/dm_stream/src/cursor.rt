ghost use Rattle.std.specs.Prelude.{◌≡◌, ◌↔◌, IsTrue, None, Some, MatchOption, IfSome, [], ◌∷◌, ◌<◌, ◌≤◌, ◌-◌, length, take, drop};
ghost use Rattle.dm_stream.specs.Trees.{no_trees, flatten, unflatten};
ghost use Rattle.dm_stream.specs.Sizes.{size};
ghost use Rattle.dm_stream.specs.Cursors.{left, end_of, sound, first_ident, first_lifetime, first_literal, first_punct, first_group, first_token, first_tree, first_span, front_span, token_span, trees_in, piece_end, sound_piece, SharesEnd, IsFlat, IsTreeLen, IsCutAfter, split_trees, entry_start, entry_end};

use crate::tokens::{Delim, Entry, Ident, Lifetime, Literal, Punct, Span, Token};

/// A place in a list of trees, before the trees that are left. A clause speaks of it by `left` and `end_of`.
#[derive(Clone, Copy)]
pub struct Cursor<'t, 'a> {
    pub(crate) entries: &'t [Entry<'a>],
    pub(crate) limit: usize,
}

/// A run of trees of one list, which lends them. A clause speaks of it by `trees_in` and `piece_end`.
#[derive(Clone, Copy)]
pub struct Piece<'t, 'a> {
    pub(crate) entries: &'t [Entry<'a>],
    pub(crate) limit: usize,
}

impl<'t, 'a> Cursor<'t, 'a> {
    /// Whether no tree is left.
    pub fn eof(self) -> bool
        requires { sound self }
        ensures { IsTrue result ↔ (left self.entry ≡ no_trees) }
    {
        self.entries.is_empty()
    }

    /// The flat form of the trees that are left, in which each group is an `Open`, its inside and a `Close`.
    pub fn entries(self) -> &'t [Entry<'a>]
        requires { sound self }
        ensures { result.now ≡ flatten (left self.entry) }
    {
        self.entries
    }

    /// The number of entries of the flat form, in constant time. No list has more trees than entries.
    pub fn len(self) -> usize
        requires { sound self }
        ensures entries { result ≡ length (flatten (left self.entry)) }
        ensures trees { size (left self.entry) ≤ result }
    {
        self.entries.len()
    }

    /// The byte at which the list ends: the length of the text, or where the closing delimiter of the group starts.
    pub fn end(self) -> usize
        ensures { result ≡ end_of self.entry }
    {
        self.limit
    }

    /// The place behind all trees.
    pub fn behind_all(self) -> Cursor<'t, 'a>
        ensures left { left result ≡ no_trees }
        ensures place { SharesEnd self.entry result }
    {
        Cursor {
            entries: &[],
            limit: self.limit,
        }
    }

    /// The next tree where it is a token, and the place after it.
    fn token(self) -> Option<(&'t Token<'a>, Cursor<'t, 'a>)>
        requires { sound self }
        ensures gives { MatchOption result (first_token (left self.entry) ≡ None) (λ r. first_token (left self.entry) ≡ Some (r.0.now, left r.1)) }
        ensures place { IfSome result (λ r. SharesEnd self.entry r.1) }
    {
        match self.entries {
            [first, rest @ ..] => match first {
                Entry::Token(token) => Some((
                    token,
                    Cursor {
                        entries: rest,
                        limit: self.limit,
                    },
                )),
                _ => None,
            },
            [] => None,
        }
    }

    /// The next token where it is an identifier, keywords among them, and the place after it.
    #[tactic(auto, using(crate::proofs::Firsts::ident_steps))]
    pub fn ident(self) -> Option<(&'t Ident<'a>, Cursor<'t, 'a>)>
        requires { sound self }
        ensures gives { MatchOption result (first_ident (left self.entry) ≡ None) (λ r. first_ident (left self.entry) ≡ Some (r.0.now, left r.1)) }
        ensures place { IfSome result (λ r. SharesEnd self.entry r.1) }
    {
        let (token, rest) = self.token()?;
        match token {
            Token::Ident(ident) => Some((ident, rest)),
            _ => None,
        }
    }

    /// The next token where it is a lifetime, and the place after it.
    #[tactic(auto, using(crate::proofs::Firsts::lifetime_steps))]
    pub fn lifetime(self) -> Option<(&'t Lifetime<'a>, Cursor<'t, 'a>)>
        requires { sound self }
        ensures gives { MatchOption result (first_lifetime (left self.entry) ≡ None) (λ r. first_lifetime (left self.entry) ≡ Some (r.0.now, left r.1)) }
        ensures place { IfSome result (λ r. SharesEnd self.entry r.1) }
    {
        let (token, rest) = self.token()?;
        match token {
            Token::Lifetime(lifetime) => Some((lifetime, rest)),
            _ => None,
        }
    }

    /// The next token where it is a punct, and the place after it.
    #[tactic(auto, using(crate::proofs::Firsts::punct_steps))]
    pub fn punct(self) -> Option<(&'t Punct, Cursor<'t, 'a>)>
        requires { sound self }
        ensures gives { MatchOption result (first_punct (left self.entry) ≡ None) (λ r. first_punct (left self.entry) ≡ Some (r.0.now, left r.1)) }
        ensures place { IfSome result (λ r. SharesEnd self.entry r.1) }
    {
        let (token, rest) = self.token()?;
        match token {
            Token::Punct(punct) => Some((punct, rest)),
            _ => None,
        }
    }

    /// The next token where it is a literal, and the place after it.
    #[tactic(auto, using(crate::proofs::Firsts::literal_steps))]
    pub fn literal(self) -> Option<(&'t Literal<'a>, Cursor<'t, 'a>)>
        requires { sound self }
        ensures gives { MatchOption result (first_literal (left self.entry) ≡ None) (λ r. first_literal (left self.entry) ≡ Some (r.0.now, left r.1)) }
        ensures place { IfSome result (λ r. SharesEnd self.entry r.1) }
    {
        let (token, rest) = self.token()?;
        match token {
            Token::Literal(literal) => Some((literal, rest)),
            _ => None,
        }
    }

    /// The next tree and the place after it, or nothing at the end.
    pub fn token_tree(self) -> Option<(Piece<'t, 'a>, Cursor<'t, 'a>)>
        requires { sound self }
        ensures gives { MatchOption result (first_tree (left self.entry) ≡ None) (λ r. first_tree (left self.entry) ≡ Some (trees_in r.0, left r.1)) }
        ensures sound { IfSome result (λ r. sound_piece r.0) }
        ensures piece_end { IfSome result (λ r. piece_end r.0 ≡ end_of self.entry) }
        ensures place { IfSome result (λ r. SharesEnd self.entry r.1) }
    {
        if self.entries.is_empty() {
            return None;
        }
        let (front, back) = self.entries.split_at(tree_len(self.entries));
        Some((
            Piece {
                entries: front,
                limit: self.limit,
            },
            Cursor {
                entries: back,
                limit: self.limit,
            },
        ))
    }

    /// The next `count` trees as one run, and the place after them, or nothing where fewer are left.
    pub fn take(self, count: usize) -> Option<(Piece<'t, 'a>, Cursor<'t, 'a>)>
        requires { sound self }
        ensures gives { MatchOption result (split_trees count (left self.entry) ≡ None) (λ r. split_trees count (left self.entry) ≡ Some (trees_in r.0, left r.1)) }
        ensures sound { IfSome result (λ r. sound_piece r.0) }
        ensures piece_end { IfSome result (λ r. piece_end r.0 ≡ end_of self.entry) }
        ensures place { IfSome result (λ r. SharesEnd self.entry r.1) }
    {
        let at = entries_of(self.entries, count)?;
        let (front, back) = self.entries.split_at(at);
        Some((
            Piece {
                entries: front,
                limit: self.limit,
            },
            Cursor {
                entries: back,
                limit: self.limit,
            },
        ))
    }

    /// The range of the next tree, of a group with both delimiters. At the end it is the empty range at the list's end.
    pub fn span(self) -> Span
        requires { sound self }
        ensures { result ≡ first_span (left self.entry) (end_of self.entry) }
    {
        match first_and_rest(self.entries) {
            None => Span {
                start: self.limit,
                end: self.limit,
            },
            Some((first, rest)) => match first {
                Entry::Token(token) => span_of(token),
                Entry::Open(_, from, count) => {
                    let (_, closing, _) = cut(rest, *count);
                    Span {
                        start: from.start,
                        end: ends_at(closing),
                    }
                }
                Entry::Close(_, upto) => *upto,
            },
        }
    }

    /// The range of the first token: of a group that of its opening delimiter alone. At the end it is the empty range at
    /// the list's end.
    pub fn front(self) -> Span
        requires { sound self }
        ensures { result ≡ front_span (left self.entry) (end_of self.entry) }
    {
        match first_and_rest(self.entries) {
            None => Span {
                start: self.limit,
                end: self.limit,
            },
            Some((first, _)) => match first {
                Entry::Token(token) => span_of(token),
                Entry::Open(_, from, _) => *from,
                Entry::Close(_, upto) => *upto,
            },
        }
    }

    /// The inside of the next tree where it is a group with this delimiter, and the place after the group. The end of the
    /// inside is the start of the closing delimiter.
    pub fn group(self, delim: Delim) -> Option<(Cursor<'t, 'a>, Cursor<'t, 'a>)>
        requires { sound self }
        ensures gives { MatchOption result (first_group delim (left self.entry) ≡ None) (λ r. first_group delim (left self.entry) ≡ Some (left r.0, end_of r.0, left r.1)) }
        ensures inside { IfSome result (λ r. sound r.0) }
        ensures place { IfSome result (λ r. SharesEnd self.entry r.1) }
    {
        let (first, rest) = first_and_rest(self.entries)?;
        match first {
            Entry::Open(found, _, count) => {
                if *found != delim {
                    return None;
                }
                let (inside, closing, others) = cut(rest, *count);
                Some((
                    Cursor {
                        entries: inside,
                        limit: starts_at(closing),
                    },
                    Cursor {
                        entries: others,
                        limit: self.limit,
                    },
                ))
            }
            _ => None,
        }
    }
}

impl<'t, 'a> Piece<'t, 'a> {
    /// The flat form of the run, in which each group is an `Open`, its inside and a `Close`.
    pub fn entries(self) -> &'t [Entry<'a>]
        requires { sound_piece self }
        ensures { result.now ≡ flatten (trees_in self.entry) }
    {
        self.entries
    }

    /// The run as a list, with the end of the list from which it was taken.
    pub fn cursor(self) -> Cursor<'t, 'a>
        requires { sound_piece self }
        ensures left { left result ≡ trees_in self.entry }
        ensures sound { sound result }
        ensures limit { end_of result ≡ piece_end self.entry }
    {
        Cursor {
            entries: self.entries,
            limit: self.limit,
        }
    }
}

/// The first entry and the ones after it.
fn first_and_rest<'t, 'a>(entries: &'t [Entry<'a>]) -> Option<(&'t Entry<'a>, &'t [Entry<'a>])>
    ensures { MatchOption result (entries.now ≡ []) (λ r. entries.now ≡ r.0.now ∷ r.1.now) }
{
    match entries {
        [first, rest @ ..] => Some((first, rest)),
        [] => None,
    }
}

/// The entries of a group's inside, its closing entry, which is the one at `number`, and the others.
fn cut<'t, 'a>(
    entries: &'t [Entry<'a>],
    number: usize,
) -> (&'t [Entry<'a>], &'t Entry<'a>, &'t [Entry<'a>])
    requires some { 0 < number }
    requires fits { number ≤ length entries.now }
    ensures front { result.0.now ≡ take (number - 1) entries.now }
    ensures back { drop (number - 1) entries.now ≡ result.1.now ∷ result.2.now }
{
    let (front, back) = entries.split_at(number - 1);
    match first_and_rest(back) {
        Some((first, rest)) => (front, first, rest),
        None => unreachable!(),
    }
}

/// Where an entry starts.
fn starts_at(entry: &Entry<'_>) -> usize
    ensures { result ≡ entry_start entry.now }
{
    match entry {
        Entry::Token(_) => 0,
        Entry::Open(_, from, _) => from.start,
        Entry::Close(_, upto) => upto.start,
    }
}

/// The number of entries of the first tree.
fn tree_len(entries: &[Entry<'_>]) -> usize
    requires flat { IsFlat entries.now }
    requires some { 0 < length entries.now }
    ensures { IsTreeLen entries.now result }
{
    match first_and_rest(entries) {
        Some((first, _)) => match first {
            Entry::Token(_) => 1,
            Entry::Open(_, _, count) => *count + 1,
            Entry::Close(_, _) => unreachable!(),
        },
        None => unreachable!(),
    }
}

/// The range of a token.
pub fn span_of(token: &Token<'_>) -> Span
    ensures { result ≡ token_span token.now }
{
    match token {
        Token::Ident(ident) => ident.span,
        Token::Punct(punct) => punct.span,
        Token::Literal(literal) => literal.span,
        Token::Lifetime(lifetime) => lifetime.span,
    }
}

/// Where an entry ends.
fn ends_at(entry: &Entry<'_>) -> usize
    ensures { result ≡ entry_end entry.now }
{
    match entry {
        Entry::Token(_) => 0,
        Entry::Open(_, from, _) => from.end,
        Entry::Close(_, upto) => upto.end,
    }
}

/// The number of entries of the first `count` trees, where there are so many.
fn entries_of(entries: &[Entry<'_>], count: usize) -> Option<usize>
    requires { IsFlat entries.now }
    ensures { MatchOption result (split_trees count (unflatten entries.now) ≡ None) (λ at. IsCutAfter entries.now count 0 at) }
{
    let mut at = 0;
    let mut more = count;
    while more > 0 {
        let rest = &entries[at..];
        if rest.is_empty() {
            return None;
        }
        at += tree_len(rest);
        more -= 1;
    }
    Some(at)
}
