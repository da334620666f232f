//! From a text to token trees, by "Tokens" of docs/FORMATS.md (Rust Reference, "Lexical structure").

ghost use Rattle.std.specs.Prelude.{ℕ, ◌≡◌, [], ◌<◌, ◌+◌, ◌^◌, None, length, take, IfOk, IfErr};
ghost use Rattle.std.specs.Str.{chars};
ghost use Rattle.dm_lexer.specs.Blanks.{blank_length};
ghost use Rattle.dm_lexer.specs.declared.blanks.Blank.TheVariants.{Absent};
ghost use Rattle.dm_lexer.specs.Nesting.{AreTheOnly, IsTreesOf, IsWhole, IsWholeWithin, IsRefusalOf, IsRefusalWithin, IsNested, IsNestingOf, IsStep};
ghost use Rattle.dm_lexer.specs.Ranges.{AreSpelled};
ghost use Rattle.dm_lexer.specs.Written.{AreWritable};
ghost use Rattle.dm_lexer.specs.Lexed.{IsLexed};
ghost use Rattle.dm_stream.specs.declared.error.Error.TheVariants as error;
ghost use Rattle.dm_stream.specs.declared.error.Kind.TheVariants as kind;

use crate::blanks::{Blank, blank_size};
use crate::front::text_from;
use crate::nesting::{Nesting, Owning, TakesLexemes};
use crate::rows::{Found, row, span_at};
use dm_stream::{DEEPEST, Delim, Error, Kind, Made, Read, Refusal, Span, Token, TokenStream};
use std::alloc::Global;

/// A token, or a delimiter and its range.
#[derive(Drop)]
pub enum Lexeme<'a> {
    Token(Token<'a>),
    Open(Delim, Span),
    Close(Delim, Span),
}

impl<'a> Lexeme<'a> {
    /// An equal lexeme that borrows nothing.
    pub fn into_owned<'b>(self, alloc: Global) -> Made<Lexeme<'b>>
        ensures { IfOk result (λ r. r ≡ self.entry) }
    {
        match self {
            Lexeme::Token(token) => Ok(Lexeme::Token(token.into_owned(alloc)?)),
            Lexeme::Open(delim, from) => Ok(Lexeme::Open(delim, from)),
            Lexeme::Close(delim, upto) => Ok(Lexeme::Close(delim, upto)),
        }
    }
}

/// What was read: a number of bytes, or a fault and its range.
#[derive(Drop)]
pub enum Progress {
    Reads(usize),
    Fault(Span),
}

/// The trees of a text, whose tokens borrow it: `lex_within` with the limit of the language, DEEPEST (128) groups. The table of
/// tokens in docs/FORMATS.md is its rule, and the source of that the Rust Reference, chapters "Whitespace", "Comments",
/// "Identifiers" and "Tokens". The ranges, and each error with its place, are those of `lex_within`.
pub fn lex<'a>(alloc: Global, text: &'a str) -> Result<TokenStream<'a>, Error>
    ensures trees { IfOk result (λ s. IsTreesOf text.now s.trees) }
    ensures only { IfOk result (λ s. AreTheOnly text.now s.trees) }
    ensures spelled { IfOk result (λ s. AreSpelled text.now s.trees) }
    ensures writable { IfOk result (λ s. AreWritable s.trees) }
    ensures limit { IfOk result (λ s. s.limit ≡ length text.now) }
    ensures whole { IfOk result (λ _. IsWhole text.now) }
    ensures refused { IfErr result (λ e. IsRefusalOf text.now e) }
{
    lex_within(alloc, text, DEEPEST)
}

/// The trees of a text, whose tokens borrow it, by the table of tokens in docs/FORMATS.md, which follows the Rust Reference. A
/// range counts bytes of the text: from the first byte of the token or delimiter to before the byte behind it. Each stands in the
/// text at its range, and the ranges follow one another. The stream's limit is the number of bytes of the text.
///
/// Errors: `Kind::Lex`, at the first fault of a text that is not made of tokens; `Kind::TooDeep`, at the first token or delimiter
/// inside more than `deepest` groups, of a text that is; a delimiter stands outside its own group. The places of faults are those
/// of docs/FORMATS.md. `Error::NoMemory` comes at any text.
pub fn lex_within<'a>(
    alloc: Global,
    text: &'a str,
    deepest: usize,
) -> Result<TokenStream<'a>, Error>
    ensures trees { IfOk result (λ s. IsTreesOf text.now s.trees) }
    ensures only { IfOk result (λ s. AreTheOnly text.now s.trees) }
    ensures spelled { IfOk result (λ s. AreSpelled text.now s.trees) }
    ensures writable { IfOk result (λ s. AreWritable s.trees) }
    ensures limit { IfOk result (λ s. s.limit ≡ length text.now) }
    ensures whole { IfOk result (λ _. IsWholeWithin deepest text.now) }
    ensures refused { IfErr result (λ e. IsRefusalWithin deepest text.now e) }
{
    let nesting: Nesting<'a> = nested(alloc, text, deepest)?;
    finished(nesting, text)
}

/// The trees of a text, whose tokens borrow nothing: their characters are copied. In all else this is `lex`.
pub fn lex_owned<'b>(alloc: Global, text: &str) -> Result<TokenStream<'b>, Error>
    ensures trees { IfOk result (λ s. IsTreesOf text.now s.trees) }
    ensures only { IfOk result (λ s. AreTheOnly text.now s.trees) }
    ensures spelled { IfOk result (λ s. AreSpelled text.now s.trees) }
    ensures writable { IfOk result (λ s. AreWritable s.trees) }
    ensures limit { IfOk result (λ s. s.limit ≡ length text.now) }
    ensures whole { IfOk result (λ _. IsWhole text.now) }
    ensures refused { IfErr result (λ e. IsRefusalOf text.now e) }
{
    let owning: Owning<'b> = nested(alloc, text, DEEPEST)?;
    finished(owning.nesting, text)
}

/// The lexemes of a whole text, as they are nested. Refuses the first fault on the way.
#[tactic(auto, using(crate::proofs::LexSteps::lex_steps))]
fn nested<'a, N: TakesLexemes<'a>>(alloc: Global, text: &'a str, deepest: usize) -> Read<N>
    ensures nested { IfOk result (λ n. IsNestingOf deepest text.now (N.nesting n)) }
    ensures refused { IfErr result (λ e. IsRefusalWithin deepest text.now e) }
{
    let mut nesting = N::none(alloc, deepest);
    let mut at = 0;
    while at < text.len() {
        match step(&mut nesting, text_from(text, at), at)? {
            Progress::Reads(size) => at += size,
            Progress::Fault(span) => return Err(refused(Kind::Lex, span)),
        }
    }
    Ok(nesting)
}

/// The trees of a text whose lexemes are nested so, or the refusal of a group that is open at its end, else of what is too deep.
fn finished<'b>(nesting: Nesting<'b>, text: &str) -> Read<TokenStream<'b>>
    requires { IsNested nesting }
    ensures { (deepest : ℕ) → IsNestingOf deepest text.now nesting.entry → IsLexed deepest text.now result }
{
    if let Some(open) = nesting.innermost() {
        return Err(refused(Kind::Lex, open));
    }
    if let Some(deep) = nesting.deep.first {
        return Err(refused(Kind::TooDeep, deep));
    }
    let Nesting { entries, .. } = nesting;
    Ok(TokenStream::from_entries(entries, text.len()))
}

/// Reads the blank or the lexeme that begins a text, which starts at `at`.
fn step<'a, N: TakesLexemes<'a>>(nesting: &mut N, text: &'a str, at: usize) -> Made<Progress>
    requires nested { IsNested (N.nesting nesting.old) }
    requires some { 0 < length text.now }
    requires fits { at + length text.now < 2 ^ 64 }
    ensures { IfOk result (λ s. IsStep s (N.nesting nesting.old) (N.nesting nesting.new) at text.now) }
{
    match blank_size(text) {
        Blank::Size(size) => Ok(Progress::Reads(size)),
        Blank::Unclosed => Ok(Progress::Fault(span_at(at, 2))),
        Blank::Absent => step_row(nesting, text, at),
    }
}

/// Reads the lexeme that begins a text, which starts at `at`.
fn step_row<'a, N: TakesLexemes<'a>>(nesting: &mut N, text: &'a str, at: usize) -> Made<Progress>
    requires nested { IsNested (N.nesting nesting.old) }
    requires some { 0 < length text.now }
    requires fits { at + length text.now < 2 ^ 64 }
    requires no_blank { blank_length (chars text.now) ≡ Absent }
    ensures { IfOk result (λ s. IsStep s (N.nesting nesting.old) (N.nesting nesting.new) at text.now) }
{
    match row(text, at) {
        Found::Gives(next, size) => match nesting.take(next)? {
            None => Ok(Progress::Reads(size)),
            Some(upto) => Ok(Progress::Fault(upto)),
        },
        Found::Refuses(size) => Ok(Progress::Fault(span_at(at, size))),
        Found::Passes => Ok(Progress::Fault(span_at(at, 1))),
    }
}

fn refused(kind: Kind, span: Span) -> Error
    ensures { result ≡ error.Refused record { kind = kind; span = span } }
{
    Error::Refused(Refusal { kind, span })
}
