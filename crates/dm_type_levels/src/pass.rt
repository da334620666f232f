//! Tokens followed along the entries of a text, up to the first that stands too deep.
#![tactic(auto, using(crate::proofs::Passes::pass_steps))]

ghost use Rattle.std.specs.Prelude.{◌≡◌, ◌≤◌, [], ◌∷◌, ◌++◌, OnOk};
ghost use Rattle.dm_ast.specs.Spelling.{deepest};
ghost use Rattle.dm_type_levels.specs.Passing as spec;
ghost use Rattle.dm_type_levels.specs.Passing.{Passes, given};

use dm_stream::{DEEPEST, Entry, Span, span_of};

/// The entries behind what was passed, or the range of the first token that stands too deep.
pub type Behind<'t, 'a> = Result<&'t [Entry<'a>], Span>;

/// The entries that are left, as a loop keeps them.
#[derive(Clone, Copy)]
pub struct Ahead<'t, 'a> {
    pub left: &'t [Entry<'a>],
}

/// The range of the first entry: of a group's opener or closer that of the delimiter alone. Where there is none it is 0..0.
fn first_span(rest: &[Entry<'_>]) -> Span
    ensures { result ≡ spec.first_span rest.now }
{
    match rest {
        [first, ..] => match first {
            Entry::Token(token) => span_of(token),
            Entry::Open(_, from, _) => *from,
            Entry::Close(_, upto) => *upto,
        },
        [] => Span::nowhere(),
    }
}

fn behind_first<'t, 'a>(rest: &'t [Entry<'a>]) -> &'t [Entry<'a>]
    ensures { result.now ≡ spec.behind_first rest.now }
{
    match rest {
        [_, behind @ ..] => behind,
        [] => rest,
    }
}

/// The entries behind a token of this level, or the token's range where it is too deep.
pub fn token<'t, 'a>(level: usize, rest: &'t [Entry<'a>]) -> Behind<'t, 'a>
    ensures gives { Passes (level ∷ []) rest.now result }
    ensures within { OnOk result (level ≤ deepest) }
{
    if level > DEEPEST {
        return Err(first_span(rest));
    }
    Ok(behind_first(rest))
}

/// The entries behind two tokens of this level.
pub fn pair<'t, 'a>(level: usize, rest: &'t [Entry<'a>]) -> Behind<'t, 'a>
    ensures gives { Passes (level ∷ level ∷ []) rest.now result }
    ensures within { OnOk result (level ≤ deepest) }
{
    let rest = token(level, rest)?;
    token(level, rest)
}

/// The entries behind a token of this level, if it is there.
pub fn token_if<'t, 'a>(there: bool, level: usize, rest: &'t [Entry<'a>]) -> Behind<'t, 'a>
    ensures { Passes (given there (level ∷ [])) rest.now result }
{
    if !there {
        return Ok(rest);
    }
    token(level, rest)
}
