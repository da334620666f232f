//! Tokens at the front of a list of trees.
#![tactic(auto, using(crate::proofs::Seeing::seeing_steps))]

ghost use Rattle.std.specs.Prelude.{◌≡◌, IfOk};
ghost use Rattle.dm_stream.specs.declared.error.Error.TheVariants.{Refused};
ghost use Rattle.dm_stream.specs.declared.error.Kind.TheVariants.{Syntax, TooDeep};
ghost use Rattle.dm_stream.specs.Cursors.{left, end_of, sound, front_span, SharesEnd};
ghost use Rattle.dm_ast.specs.Spelling as spelling;
ghost use Rattle.dm_ast.specs.Readers as spec;
ghost use Rattle.dm_ast.specs.Readers.{place, Reads, Passes};

use dm_stream::{
    Cursor, DEEPEST, Delim, Error, Ident, Kind, Lifetime, Literal, Read, Refusal, Spacing, Span,
};

/// What was read, and the place behind it.
pub type Found<'t, 'a, T> = Read<(T, Cursor<'t, 'a>)>;

/// The refusal of the next token, or of the end.
pub fn refused(c: Cursor<'_, '_>) -> Error
    requires { sound c }
    ensures { result ≡ Refused (record { kind = Syntax; span = front_span (left c.entry) (end_of c.entry) }) }
{
    Error::Refused(Refusal {
        kind: Kind::Syntax,
        span: c.front(),
    })
}

/// The refusal of a token that stands too deep.
pub fn too_deep(span: Span) -> Error
    ensures { result ≡ Refused (record { kind = TooDeep; span = span }) }
{
    Error::Refused(Refusal {
        kind: Kind::TooDeep,
        span,
    })
}

/// Whether a punct of this character comes next.
pub fn sees(ch: char, c: Cursor<'_, '_>) -> bool
    requires { sound c }
    ensures { result ≡ spelling.sees ch (left c.entry) }
{
    match c.punct() {
        Some((punct, _)) => punct.ch == ch,
        None => false,
    }
}

fn is_joint(spacing: Spacing) -> bool
    ensures { result ≡ spelling.is_joint spacing }
{
    match spacing {
        Spacing::Joint => true,
        Spacing::Alone => false,
    }
}

/// Whether two puncts come next, the first of them joint.
pub fn sees_pair(first: char, second: char, c: Cursor<'_, '_>) -> bool
    requires { sound c }
    ensures { result ≡ spelling.sees_pair first second (left c.entry) }
{
    match c.punct() {
        Some((punct, rest)) => punct.ch == first && is_joint(punct.spacing) && sees(second, rest),
        None => false,
    }
}

pub fn sees_colons(c: Cursor<'_, '_>) -> bool
    requires { sound c }
    ensures { result ≡ spelling.sees_colons (left c.entry) }
{
    sees_pair(':', ':', c)
}

pub fn sees_arrow(c: Cursor<'_, '_>) -> bool
    requires { sound c }
    ensures { result ≡ spelling.sees_arrow (left c.entry) }
{
    sees_pair('-', '>', c)
}

/// Whether a `:` comes next that isn't the front of `::`.
pub fn sees_colon(c: Cursor<'_, '_>) -> bool
    requires { sound c }
    ensures { result ≡ spelling.sees_colon (left c.entry) }
{
    match c.punct() {
        Some((punct, rest)) => punct.ch == ':' && !(is_joint(punct.spacing) && sees(':', rest)),
        None => false,
    }
}

/// Whether a `=` comes next that isn't the front of `==` or `=>`.
pub fn sees_equals(c: Cursor<'_, '_>) -> bool
    requires { sound c }
    ensures { result ≡ spelling.sees_equals (left c.entry) }
{
    match c.punct() {
        Some((punct, rest)) => {
            punct.ch == '=' && !(is_joint(punct.spacing) && (sees('=', rest) || sees('>', rest)))
        }
        None => false,
    }
}

/// Whether an identifier is this keyword.
pub fn is_word(word: &str, ident: &Ident<'_>) -> bool
    ensures { result ≡ spelling.is_word word.now ident.now }
{
    !ident.raw && ident.name.as_str() == word
}

/// Whether this keyword comes next.
pub fn sees_word(word: &str, c: Cursor<'_, '_>) -> bool
    requires { sound c }
    ensures { result ≡ spelling.sees_word word.now (left c.entry) }
{
    match c.ident() {
        Some((ident, _)) => is_word(word, ident),
        None => false,
    }
}

pub fn sees_lifetime(c: Cursor<'_, '_>) -> bool
    requires { sound c }
    ensures { result ≡ spelling.sees_lifetime (left c.entry) }
{
    match c.lifetime() {
        Some(_) => true,
        None => false,
    }
}

pub fn sees_literal(c: Cursor<'_, '_>) -> bool
    requires { sound c }
    ensures { result ≡ spelling.sees_literal (left c.entry) }
{
    match c.literal() {
        Some(_) => true,
        None => false,
    }
}

/// Whether a group with this delimiter comes next.
pub fn sees_group(delim: Delim, c: Cursor<'_, '_>) -> bool
    requires { sound c }
    ensures { result ≡ spelling.sees_group delim (left c.entry) }
{
    match c.group(delim) {
        Some(_) => true,
        None => false,
    }
}

/// Whether nothing is left.
pub fn at_end(c: Cursor<'_, '_>) -> bool
    requires { sound c }
    ensures { result ≡ spelling.at_end (left c.entry) }
{
    c.eof()
}

/// What follows the next tree.
pub fn behind<'t, 'a>(c: Cursor<'t, 'a>) -> Cursor<'t, 'a>
    requires { sound c }
    ensures left { left result ≡ spec.tail (left c.entry) }
    ensures place { SharesEnd c.entry result }
{
    match c.token_tree() {
        Some((_, rest)) => rest,
        None => c,
    }
}

/// What follows the next two trees.
pub fn behind_two<'t, 'a>(c: Cursor<'t, 'a>) -> Cursor<'t, 'a>
    requires { sound c }
    ensures left { left result ≡ spec.tail (spec.tail (left c.entry)) }
    ensures place { SharesEnd c.entry result }
{
    behind(behind(c))
}

/// Goes on to `rest` where what was looked for is there.
fn pass<'t, 'a>(
    seen: bool,
    level: usize,
    c: Cursor<'t, 'a>,
    rest: Cursor<'t, 'a>,
) -> Read<Cursor<'t, 'a>>
    requires here { sound c }
    requires there { SharesEnd c rest }
    ensures reads { Passes (spec.if_seen seen (place level c.entry) (left c.entry) (left rest.entry)) result }
    ensures place { IfOk result (λ r. SharesEnd c.entry r) }
{
    if !seen {
        return Err(refused(c));
    }
    if level > DEEPEST {
        return Err(too_deep(c.front()));
    }
    Ok(rest)
}

/// A punct of this character.
pub fn punct<'t, 'a>(ch: char, level: usize, c: Cursor<'t, 'a>) -> Read<Cursor<'t, 'a>>
    requires { sound c }
    ensures reads { Passes (spec.read_punct ch (place level c.entry) (left c.entry)) result }
    ensures place { IfOk result (λ r. SharesEnd c.entry r) }
{
    pass(sees(ch, c), level, c, behind(c))
}

/// This keyword.
pub fn word<'t, 'a>(word: &str, level: usize, c: Cursor<'t, 'a>) -> Read<Cursor<'t, 'a>>
    requires { sound c }
    ensures reads { Passes (spec.read_word word.now (place level c.entry) (left c.entry)) result }
    ensures place { IfOk result (λ r. SharesEnd c.entry r) }
{
    pass(sees_word(word, c), level, c, behind(c))
}

/// `::`.
pub fn colons<'t, 'a>(level: usize, c: Cursor<'t, 'a>) -> Read<Cursor<'t, 'a>>
    requires { sound c }
    ensures reads { Passes (spec.read_colons (place level c.entry) (left c.entry)) result }
    ensures place { IfOk result (λ r. SharesEnd c.entry r) }
{
    pass(sees_colons(c), level, c, behind_two(c))
}

/// `->`.
pub fn arrow<'t, 'a>(level: usize, c: Cursor<'t, 'a>) -> Read<Cursor<'t, 'a>>
    requires { sound c }
    ensures reads { Passes (spec.read_arrow (place level c.entry) (left c.entry)) result }
    ensures place { IfOk result (λ r. SharesEnd c.entry r) }
{
    pass(sees_arrow(c), level, c, behind_two(c))
}

/// A `:` that isn't the front of `::`.
pub fn colon<'t, 'a>(level: usize, c: Cursor<'t, 'a>) -> Read<Cursor<'t, 'a>>
    requires { sound c }
    ensures reads { Passes (spec.read_colon (place level c.entry) (left c.entry)) result }
    ensures place { IfOk result (λ r. SharesEnd c.entry r) }
{
    pass(sees_colon(c), level, c, behind(c))
}

/// A `=` that isn't the front of `==` or `=>`.
pub fn equals<'t, 'a>(level: usize, c: Cursor<'t, 'a>) -> Read<Cursor<'t, 'a>>
    requires { sound c }
    ensures reads { Passes (spec.read_equals (place level c.entry) (left c.entry)) result }
    ensures place { IfOk result (λ r. SharesEnd c.entry r) }
{
    pass(sees_equals(c), level, c, behind(c))
}

/// Any identifier.
pub fn ident<'t, 'a>(level: usize, c: Cursor<'t, 'a>) -> Found<'t, 'a, &'t Ident<'a>>
    requires { sound c }
    ensures reads { Reads (λ i. i.now) (spec.read_any (place level c.entry) (left c.entry)) result }
    ensures place { IfOk result (λ r. SharesEnd c.entry r.1) }
{
    let Some((ident, rest)) = c.ident() else {
        return Err(refused(c));
    };
    if level > DEEPEST {
        return Err(too_deep(c.front()));
    }
    Ok((ident, rest))
}

pub fn lifetime<'t, 'a>(level: usize, c: Cursor<'t, 'a>) -> Found<'t, 'a, &'t Lifetime<'a>>
    requires { sound c }
    ensures reads { Reads (λ l. l.now) (spec.read_lifetime (place level c.entry) (left c.entry)) result }
    ensures place { IfOk result (λ r. SharesEnd c.entry r.1) }
{
    let Some((lifetime, rest)) = c.lifetime() else {
        return Err(refused(c));
    };
    if level > DEEPEST {
        return Err(too_deep(c.front()));
    }
    Ok((lifetime, rest))
}

pub fn literal<'t, 'a>(level: usize, c: Cursor<'t, 'a>) -> Found<'t, 'a, &'t Literal<'a>>
    requires { sound c }
    ensures reads { Reads (λ l. l.now) (spec.read_literal (place level c.entry) (left c.entry)) result }
    ensures place { IfOk result (λ r. SharesEnd c.entry r.1) }
{
    let Some((literal, rest)) = c.literal() else {
        return Err(refused(c));
    };
    if level > DEEPEST {
        return Err(too_deep(c.front()));
    }
    Ok((literal, rest))
}
