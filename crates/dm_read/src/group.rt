//! Groups, and trees that are kept as they are.
#![tactic(auto)]

ghost use Rattle.std.specs.Prelude.{◌≡◌, true, false, IfOk, MatchResult};
ghost use Rattle.dm_stream.specs.Cursors.{left, end_of, sound, front_span, SharesEnd};
ghost use Rattle.dm_stream.specs.declared.error.Error.TheVariants.{Refused};
ghost use Rattle.dm_stream.specs.declared.error.Kind.TheVariants.{Syntax};
ghost use Rattle.dm_ast.specs.Spelling as spelling;
ghost use Rattle.dm_ast.specs.Readers as spec;
ghost use Rattle.dm_ast.specs.PlainReaders as plain;
ghost use Rattle.dm_ast.specs.Readers.{place, Opens};

use crate::token::{Found, at_end, refused, sees_group, too_deep};
use dm_stream::{Cursor, DEEPEST, Delim, Read};

/// The inside of a group with this delimiter, and what follows the group.
#[tactic(auto, using(crate::proofs::Opening::opening_steps))]
pub fn open<'t, 'a>(delim: Delim, level: usize, c: Cursor<'t, 'a>) -> Found<'t, 'a, Cursor<'t, 'a>>
    requires { sound c }
    ensures opens { Opens (spec.open_group delim (place level c.entry) (left c.entry)) result }
    ensures inside { IfOk result (λ r. sound r.0) }
    ensures place { IfOk result (λ r. SharesEnd c.entry r.1) }
{
    let Some((inside, rest)) = c.group(delim) else {
        return Err(refused(c));
    };
    if level > DEEPEST {
        return Err(too_deep(c.front()));
    }
    Ok((inside, rest))
}

/// Refuses what is left of the inside of a group.
pub fn close(c: Cursor<'_, '_>) -> Read<()>
    requires { sound c }
    ensures { MatchResult result (λ _. spelling.at_end (left c.entry) ≡ true) (λ e. (spelling.at_end (left c.entry) ≡ false) × (e ≡ Refused (record { kind = Syntax; span = front_span (left c.entry) (end_of c.entry) }))) }
{
    if at_end(c) { Ok(()) } else { Err(refused(c)) }
}

/// The delimiter of the group that comes next.
#[tactic(auto, using(crate::proofs::Opening::delim_steps))]
pub fn delim(c: Cursor<'_, '_>) -> Option<Delim>
    requires { sound c }
    ensures { result ≡ plain.delim_of (left c.entry) }
{
    if sees_group(Delim::Paren, c) {
        Some(Delim::Paren)
    } else if sees_group(Delim::Bracket, c) {
        Some(Delim::Bracket)
    } else if sees_group(Delim::Brace, c) {
        Some(Delim::Brace)
    } else {
        None
    }
}
