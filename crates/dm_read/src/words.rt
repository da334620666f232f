//! What identifiers may be.

ghost use Rattle.std.specs.Prelude.{◌≡◌, IfOk, bytes_eq};
ghost use Rattle.std.specs.List.{list_any};
ghost use Rattle.dm_stream.specs.Cursors.{left, sound, SharesEnd};
ghost use Rattle.dm_ast.specs.Keywords as spells;
ghost use Rattle.dm_ast.specs.TypeGrammar as grammar;
ghost use Rattle.dm_ast.specs.Readers as spec;
ghost use Rattle.dm_ast.specs.Readers.{place, Reads};
ghost use Rattle.dm_read.specs.Words as words;

use crate::token::{
    Found, behind_two, is_word, refused, sees, sees_colon, sees_colons, sees_group, sees_lifetime,
    sees_word, too_deep,
};
use dm_stream::{Cursor, DEEPEST, Delim, Ident};

/// The words that are no name unless `r#` stands before them (Rust Reference, Keywords).
const KEYWORDS: [&str; 51] = [
    "abstract", "as", "async", "await", "become", "box", "break", "const", "continue", "crate",
    "do", "dyn", "else", "enum", "extern", "false", "final", "fn", "for", "if", "impl", "in",
    "let", "loop", "macro", "match", "mod", "move", "mut", "override", "priv", "pub", "ref",
    "return", "Self", "self", "static", "struct", "super", "trait", "true", "try", "type",
    "typeof", "unsafe", "unsized", "use", "virtual", "where", "while", "yield",
];

/// Whether an identifier may be declared.
pub fn is_name(ident: &Ident<'_>) -> bool
    ensures { result ≡ spells.is_name ident.now }
{
    !ident.name.is_same("_") && (ident.raw || !is_keyword(ident.name.as_str()))
}

/// A name.
pub fn name<'t, 'a>(level: usize, c: Cursor<'t, 'a>) -> Found<'t, 'a, &'t Ident<'a>>
    requires { sound c }
    ensures reads { Reads (λ i. i.now) (spec.read_ident spells.is_name (place level c.entry) (left c.entry)) result }
    ensures place { IfOk result (λ r. SharesEnd c.entry r.1) }
{
    ident_where(Fitting::Name, level, c)
}

// The shortest keywords have two letters, and the longest eight. None begins with `__`, as most names of emitted code do.
#[tactic(auto, unfolding(dm_ast::specs::Keywords::is_keyword), using(crate::proofs::KeywordSizes::size_steps))]
fn is_keyword(name: &str) -> bool
    ensures { result ≡ spells.is_keyword name.now }
{
    if name.len() < 2 {
        return false;
    }
    if name.len() > 8 {
        return false;
    }
    if name.starts_with("__") {
        return false;
    }
    is_listed(name, &KEYWORDS)
}

fn is_listed(name: &str, words: &[&str]) -> bool
    ensures { result ≡ list_any (λ w. bytes_eq name.now w.now) words.now }
{
    words
        .iter()
        .any(|word| name.len() == word.len() && name == *word)
}

/// Whether an identifier may stand in a path of a type.
pub fn is_path_word(ident: &Ident<'_>) -> bool
    ensures { result ≡ grammar.is_path_word ident.now }
{
    is_name(ident)
        || (is_word("self", ident)
            || (is_word("Self", ident) || (is_word("super", ident) || is_word("crate", ident))))
}

/// Whether an identifier is `true` or `false`.
pub fn is_truth(ident: &Ident<'_>) -> bool
    ensures { result ≡ grammar.is_truth ident.now }
{
    is_word("true", ident) || is_word("false", ident)
}

/// Whether an identifier that may stand in a path of a type comes next.
#[tactic(auto, using(crate::proofs::Seeing::path_word_steps))]
pub fn sees_path_word(c: Cursor<'_, '_>) -> bool
    requires { sound c }
    ensures { result ≡ grammar.sees_path_word (left c.entry) }
{
    match c.ident() {
        Some((ident, _)) => is_path_word(ident),
        None => false,
    }
}

/// An identifier of a path of a type.
pub fn path_word<'t, 'a>(level: usize, c: Cursor<'t, 'a>) -> Found<'t, 'a, &'t Ident<'a>>
    requires { sound c }
    ensures reads { Reads (λ i. i.now) (spec.read_ident grammar.is_path_word (place level c.entry) (left c.entry)) result }
    ensures place { IfOk result (λ r. SharesEnd c.entry r.1) }
{
    ident_where(Fitting::PathWord, level, c)
}

/// Whether a bound comes next.
pub fn sees_bound(c: Cursor<'_, '_>) -> bool
    requires { sound c }
    ensures { result ≡ grammar.sees_bound (left c.entry) }
{
    ((((sees_lifetime(c) || sees('?', c)) || sees_group(Delim::Paren, c)) || sees_word("for", c))
        || sees_colons(c))
        || sees_path_word(c)
}

/// Whether a name of a parameter and a `:` come next.
#[tactic(auto, using(crate::proofs::Seeing::named_steps))]
pub fn sees_named(c: Cursor<'_, '_>) -> bool
    requires { sound c }
    ensures { result ≡ grammar.sees_named (left c.entry) }
{
    match c.ident() {
        Some((ident, rest)) => is_input_name(ident) && sees_colon(rest),
        None => false,
    }
}

/// Which identifiers may stand at a place.
#[derive(Clone, Copy)]
pub enum Fitting {
    /// Names.
    Name,
    /// Those of a path of a type.
    PathWord,
    /// `true` and `false`.
    Truth,
    /// Names of parameters.
    InputName,
}

fn fits(fitting: Fitting, ident: &Ident<'_>) -> bool
    ensures { result ≡ words.fits fitting ident.now }
{
    match fitting {
        Fitting::Name => is_name(ident),
        Fitting::PathWord => is_path_word(ident),
        Fitting::Truth => is_truth(ident),
        Fitting::InputName => is_input_name(ident),
    }
}

/// An identifier that fits.
fn ident_where<'t, 'a>(
    fitting: Fitting,
    level: usize,
    c: Cursor<'t, 'a>,
) -> Found<'t, 'a, &'t Ident<'a>>
    requires { sound c }
    ensures reads { Reads (λ i. i.now) (spec.read_ident (words.fits fitting) (place level c.entry) (left c.entry)) result }
    ensures place { IfOk result (λ r. SharesEnd c.entry r.1) }
{
    let Some((ident, rest)) = c.ident() else {
        return Err(refused(c));
    };
    if !fits(fitting, ident) {
        return Err(refused(c));
    }
    if level > DEEPEST {
        return Err(too_deep(c.front()));
    }
    Ok((ident, rest))
}

/// Whether an identifier may name a parameter.
pub fn is_input_name(ident: &Ident<'_>) -> bool
    ensures { result ≡ grammar.is_input_name ident.now }
{
    is_name(ident) || is_word("_", ident)
}

/// A name of a parameter.
pub fn input_name<'t, 'a>(level: usize, c: Cursor<'t, 'a>) -> Found<'t, 'a, &'t Ident<'a>>
    requires { sound c }
    ensures reads { Reads (λ i. i.now) (spec.read_ident grammar.is_input_name (place level c.entry) (left c.entry)) result }
    ensures place { IfOk result (λ r. SharesEnd c.entry r.1) }
{
    ident_where(Fitting::InputName, level, c)
}

/// `true` or `false`.
pub fn truth<'t, 'a>(level: usize, c: Cursor<'t, 'a>) -> Found<'t, 'a, &'t Ident<'a>>
    requires { sound c }
    ensures reads { Reads (λ i. i.now) (spec.read_ident grammar.is_truth (place level c.entry) (left c.entry)) result }
    ensures place { IfOk result (λ r. SharesEnd c.entry r.1) }
{
    ident_where(Fitting::Truth, level, c)
}

/// Whether `::` and `<` come next.
#[tactic(auto, using(crate::proofs::PathSeeing::turbofish_steps))]
pub fn sees_turbofish(c: Cursor<'_, '_>) -> bool
    requires { sound c }
    ensures { result ≡ grammar.sees_turbofish (left c.entry) }
{
    sees_colons(c) && sees('<', behind_two(c))
}

/// Whether arguments of a segment come next.
pub fn sees_arguments(c: Cursor<'_, '_>) -> bool
    requires { sound c }
    ensures { result ≡ grammar.sees_arguments (left c.entry) }
{
    (sees('<', c) || sees_turbofish(c)) || sees_group(Delim::Paren, c)
}
