//! Discriminants.
#![tactic(auto)]

ghost use Rattle.std.specs.Prelude.{IfOk};
ghost use Rattle.dm_stream.specs.Cursors.{left, sound, SharesEnd};
ghost use Rattle.dm_ast.specs.Runs as runs;
ghost use Rattle.dm_ast.specs.Readers.{place, Reads};

use crate::rest::rest_of;
use crate::token::{Found, refused};
use dm_ast::Opaque;
use dm_expr::discriminant_end;
use dm_stream::Cursor;
use std::alloc::Global;

/// The tokens of a discriminant, up to a comma or the end.
pub fn run<'t, 'a>(alloc: Global, level: usize, c: Cursor<'t, 'a>) -> Found<'t, 'a, Opaque<'a>>
    requires { sound c }
    ensures reads { Reads (λ o. o) (runs.read_run (place level c.entry) (left c.entry)) result }
    ensures place { IfOk result (λ r. SharesEnd c.entry r.1) }
{
    let Some((piece, rest)) = discriminant_end(c) else {
        return Err(refused(c));
    };
    let (mut tokens, _) = rest_of(alloc, level, piece.cursor())?;
    tokens.unjoin();
    Ok((Opaque { tokens }, rest))
}
