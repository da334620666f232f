ghost use Rattle.dm_stream.specs.Cursors.{sound, sound_piece};

use dm_stream::Made;
use dm_tokens::{
    Cursor, Delim, Entry, Ident, Layout, Lifetime, LitKind, Literal, Piece, Punct, Punctuated, Seq,
    Spacing, Span, Text, ToTokens, Token, TokenStream, print, print_piece,
};
use std::alloc::{AllocError, Global};

fn place(start: usize, end: usize) -> Span {
    Span { start, end }
}

fn ident<'a>(name: &'a str, raw: bool) -> Ident<'a> {
    Ident {
        name: Text::borrowed(name),
        raw,
        span: place(3, 4),
    }
}

fn lifetime<'a>(name: &'a str) -> Lifetime<'a> {
    Lifetime {
        name: Text::borrowed(name),
        span: place(4, 5),
    }
}

fn literal<'a>(text: &'a str) -> Literal<'a> {
    Literal {
        kind: LitKind::Str,
        text: Text::borrowed(text),
        span: place(5, 6),
    }
}

fn punct(ch: char, spacing: Spacing) -> Punct {
    Punct {
        ch,
        spacing,
        span: place(6, 7),
    }
}

/// A token to be.
#[derive(Clone, Copy)]
enum Part {
    Word(&'static str),
    RawWord(&'static str),
    Lifetime(&'static str),
    Literal(&'static str),
    Punct(char, Spacing),
}

fn token(part: Part) -> Token<'static> {
    match part {
        Part::Word(name) => Token::Ident(ident(name, false)),
        Part::RawWord(name) => Token::Ident(ident(name, true)),
        Part::Lifetime(name) => Token::Lifetime(lifetime(name)),
        Part::Literal(text) => Token::Literal(literal(text)),
        Part::Punct(ch, spacing) => Token::Punct(punct(ch, spacing)),
    }
}

fn add_all<'a>(out: &mut TokenStream<'a>, parts: &[Part]) -> Made<()> {
    for part in parts.iter().copied() {
        out.add(token(part))?;
    }
    Ok(())
}

fn added<'a>(alloc: Global, parts: &[Part]) -> Made<TokenStream<'a>> {
    let mut out = TokenStream::new(alloc);
    add_all(&mut out, parts)?;
    Ok(out)
}

const THREE_WORDS: &[Part] = &[Part::Word("a"), Part::Word("b"), Part::Word("c")];

/// Whether the stream's layout, if it could be made, is this text.
fn is_layout(alloc: Global, made: Result<TokenStream<'_>, AllocError>, wanted: &str) -> Made<bool> {
    let stream = made?;
    let text = print(alloc, &stream)?;
    Ok(text.as_str() == wanted)
}

fn is_piece(alloc: Global, piece: Piece<'_, '_>, wanted: &str) -> Made<bool>
    requires { sound_piece piece }
{
    let text = print_piece(alloc, piece)?;
    Ok(text.as_str() == wanted)
}

/// `a + b (c) { }`
fn sum<'a>(alloc: Global) -> Made<TokenStream<'a>> {
    let plus = Part::Punct('+', Spacing::Alone);
    let mut out = added(alloc, &[Part::Word("a"), plus, Part::Word("b")])?;
    out.push_group(Delim::Paren, added(alloc, &[Part::Word("c")])?)?;
    out.push_group(Delim::Brace, TokenStream::new(alloc))?;
    Ok(out)
}

#[test]
fn lays_out_a_sum(rt: HostRuntime) -> Made<()> {
    let alloc = rt.alloc();
    assert!(rt; is_layout(alloc, sum(alloc), "a + b (c) { }")?);
    Ok(())
}

/// Writes a token by the way of its kind.
fn write_kind(out: &mut TokenStream<'static>, part: Part) -> Made<()> {
    match part {
        Part::Word(name) => ident(name, false).to_tokens(out),
        Part::RawWord(name) => ident(name, true).to_tokens(out),
        Part::Lifetime(name) => lifetime(name).to_tokens(out),
        Part::Literal(text) => literal(text).to_tokens(out),
        Part::Punct(ch, spacing) => punct(ch, spacing).to_tokens(out),
    }
}

/// Writes each token twice: by the way of its kind, and as a token.
fn written_twice(alloc: Global, parts: &[Part]) -> Made<TokenStream<'static>> {
    let mut out = TokenStream::new(alloc);
    for part in parts.iter().copied() {
        write_kind(&mut out, part)?;
        token(part).to_tokens(&mut out)?;
    }
    Ok(out)
}

const INSIDE: &[Part] = &[
    Part::RawWord("type"),
    Part::Punct(':', Spacing::Joint),
    Part::Literal("\"x\""),
];

const OUTSIDE: &[Part] = &[Part::Lifetime("a"), Part::Literal("1u8")];

/// Adds the stream in brackets, and a copy in braces.
fn add_groups(
    out: &mut TokenStream<'static>,
    alloc: Global,
    inside: TokenStream<'static>,
) -> Made<()> {
    let copy = inside.clone_in(alloc)?;
    out.push_group(Delim::Bracket, inside)?;
    out.push_group(Delim::Brace, copy)
}

fn each_kind(alloc: Global) -> Made<TokenStream<'static>> {
    let mut out = written_twice(alloc, OUTSIDE)?;
    add_groups(&mut out, alloc, written_twice(alloc, INSIDE)?)?;
    Ok(out)
}

#[test]
fn lays_out_each_kind(rt: HostRuntime) -> Made<()> {
    let alloc = rt.alloc();
    let text = "'a 'a 1u8 1u8 [r#type r#type ::\"x\" \"x\"] { r#type r#type ::\"x\" \"x\" }";
    assert!(rt; is_layout(alloc, each_kind(alloc), text)?);
    Ok(())
}

/// `x ()`, and a run behind it.
fn extended<'a>(alloc: Global, run: Piece<'_, 'a>) -> Made<TokenStream<'a>>
    requires { sound_piece run }
{
    let mut out = added(alloc, &[Part::Word("x")])?;
    out.push_group(Delim::Paren, TokenStream::new(alloc))?;
    out.extend(run)?;
    Ok(out)
}

/// Whether `a b` is taken of three words, and `c` is left.
fn takes_two(words: &TokenStream<'_>, alloc: Global) -> Made<bool> {
    match words.cursor().take(2) {
        None => Ok(false),
        Some((front, rest)) => Ok(
            is_piece(alloc, front, "a b")?
                && is_layout(alloc, extended(alloc, front), "x () a b")?
                && is_layout(alloc, TokenStream::from_cursor(alloc, rest), "c")?,
        ),
    }
}

#[test]
fn takes_runs(rt: HostRuntime) -> Made<()> {
    let alloc = rt.alloc();
    let words = added(alloc, THREE_WORDS)?;
    assert!(rt; takes_two(&words, alloc)?);
    assert!(rt; is_piece(alloc, words.piece(), "a b c")?);
    Ok(())
}

/// `a (a b c) 'b 7 ;`
fn walk<'a>(alloc: Global) -> Made<TokenStream<'a>> {
    let mut out = added(alloc, &[Part::Word("a")])?;
    out.push_group(Delim::Paren, added(alloc, THREE_WORDS)?)?;
    let semicolon = Part::Punct(';', Spacing::Alone);
    add_all(
        &mut out,
        &[Part::Lifetime("b"), Part::Literal("7"), semicolon],
    )?;
    Ok(out)
}

/// Whether `(a b c)`, and behind it a lifetime, come next as a group and as a tree.
fn has_group(group: Cursor<'_, '_>) -> Option<bool>
    requires { sound group }
{
    let (inside, _) = group.group(Delim::Paren)?;
    let (tree, rest) = group.token_tree()?;
    Some(
        group.group(Delim::Brace).is_none()
            && inside.take(3).is_some()
            && inside.take(4).is_none()
            && tree.cursor().group(Delim::Paren).is_some()
            && rest.lifetime().is_some(),
    )
}

/// Whether a lifetime, a literal and a punct come next, and then the end.
fn ends(rest: Cursor<'_, '_>) -> Option<bool>
    requires { sound rest }
{
    let (_, rest) = rest.lifetime()?;
    let (_, rest) = rest.literal()?;
    let (_, rest) = rest.punct()?;
    Some(rest.eof() && rest.span().end == 0)
}

/// Whether `a` comes next at its place, then the group, then the others.
fn is_walked(start: Cursor<'_, '_>) -> Option<bool>
    requires { sound start }
{
    let (name, group) = start.ident()?;
    let (_, rest) = group.group(Delim::Paren)?;
    Some(
        !start.eof()
            && start.span().start == 3
            && name.name.is_same("a")
            && has_group(group)?
            && ends(rest)?,
    )
}

#[test]
fn walks(rt: HostRuntime) -> Made<()> {
    let out = walk(rt.alloc())?;
    assert!(rt; out.entries().len() == 9);
    assert!(rt; matches!(out.entries().get(1), Some(Entry::Open(Delim::Paren, _, 4))));
    assert!(rt; is_walked(out.cursor()) == Some(true));
    Ok(())
}

#[test]
fn joins(rt: HostRuntime) {
    assert!(rt; place(3, 9).join(place(1, 4)) == place(1, 9));
}

fn lay(text: &mut Layout, part: Part) -> Made<()> {
    match part {
        Part::Word(name) => text.ident(&ident(name, false)),
        Part::RawWord(name) => text.ident(&ident(name, true)),
        Part::Lifetime(name) => text.lifetime(&lifetime(name)),
        Part::Literal(literal_text) => text.literal(&literal(literal_text)),
        Part::Punct(ch, spacing) => text.punct(ch, spacing),
    }
}

/// `fn f ('a) -> 1` and the end of the line.
fn lay_line(text: &mut Layout) -> Made<()> {
    text.word("fn")?;
    lay(text, Part::Word("f"))?;
    text.open(Delim::Paren)?;
    lay(text, Part::Lifetime("a"))?;
    text.close(Delim::Paren)?;
    lay(text, Part::Punct('-', Spacing::Joint))?;
    lay(text, Part::Punct('>', Spacing::Alone))?;
    lay(text, Part::Literal("1"))?;
    text.line_end()
}

/// `r#x`, and the words twice.
fn lay_words(text: &mut Layout, words: &TokenStream<'_>) -> Made<()> {
    text.token(&token(Part::RawWord("x")))?;
    text.stream(words)?;
    text.piece(words.piece())
}

#[test]
fn adds_to_a_layout(rt: HostRuntime) -> Made<()> {
    let words = added(rt.alloc(), THREE_WORDS)?;
    let mut text = Layout::new(rt.alloc());
    lay_line(&mut text)?;
    lay_words(&mut text, &words)?;
    assert!(rt; text.into_string().as_str() == "fn f ('a) -> 1\nr#x a b c a b c");
    Ok(())
}

/// Whether the list is 5 and 6.
fn are_items(items: &Seq<u8>) -> bool {
    items.len() == 2
        && items.get(1).copied() == Some(6)
        && items.get(2).is_none()
        && items.iter().copied().max() == Some(6)
}

/// Whether the list is 5 and 6, with no comma behind them.
fn are_separated(list: &Punctuated<u8>) -> bool {
    !list.trailing
        && list.len() == 2
        && list.get(0).copied() == Some(5)
        && list.iter().copied().min() == Some(5)
}

#[test]
fn keeps_lists(rt: HostRuntime) {
    let mut items = Seq::new(rt.alloc());
    assert!(rt; items.push(5).is_ok() && items.push(6).is_ok());
    assert!(rt; are_items(&items));
    let mut list = Punctuated::new(rt.alloc());
    assert!(rt; list.is_empty());
    assert!(rt; list.push(5).is_ok() && list.push(6).is_ok());
    assert!(rt; are_separated(&list));
    assert!(rt; list.as_slice() == items.as_slice() && list.items == items);
}

#[test]
fn keeps_texts(rt: HostRuntime) -> Made<()> {
    let owned = Text::owned(String::from_str(rt.alloc(), "name")?);
    assert!(rt; owned == Text::borrowed("name"));
    assert!(rt; owned.clone_in(rt.alloc())? != Text::borrowed("other"));
    Ok(())
}
