//! Paths whose own segments have no list in parentheses, where they stand alone.
#![tactic(auto)]

ghost use Rattle.std.specs.Prelude.{◌<◌, IfOk};
ghost use Rattle.dm_stream.specs.Cursors.{left, sound, SharesEnd};
ghost use Rattle.dm_ast.specs.Readers as spec;
ghost use Rattle.dm_ast.specs.Readers.{place};
ghost use Rattle.dm_read_paths.specs.BarePaths as bare;
ghost use Rattle.dm_read_paths.specs.Prelude.{read_type, path_view};

use crate::entry::DEPTH;
use crate::ty::ty;
use dm_ast::Path;
use dm_input::Input;
use dm_read_paths::grammar::Grammar;
use dm_stream::{Cursor, Read};
use std::alloc::Global;

/// A path with at most `depth` types in one another.
fn nested_path<'t, 'a>(
    alloc: Global,
    depth: usize,
    level: usize,
    c: Cursor<'t, 'a>,
) -> Read<(Path<'a>, Cursor<'t, 'a>)>
    requires here { sound c }
    requires fits { level < 130 }
    ensures reads { spec.Reads path_view (bare.read_bare_path (read_type depth) (place level c.entry) (left c.entry)) result }
    ensures place { IfOk result (λ r. SharesEnd c.entry r.1) }
{
    let mut input = Input::new(alloc, level, c);
    let found = Grammar { depth, ty }.path(true, &mut input)?;
    Ok((found, input.cursor()))
}

/// A path whose own segments have no list in parentheses.
pub fn bare_path<'t, 'a>(
    alloc: Global,
    level: usize,
    c: Cursor<'t, 'a>,
) -> Read<(Path<'a>, Cursor<'t, 'a>)>
    requires here { sound c }
    requires fits { level < 130 }
    ensures reads { spec.Reads path_view (bare.read_bare_path (read_type 129) (place level c.entry) (left c.entry)) result }
    ensures place { IfOk result (λ r. SharesEnd c.entry r.1) }
{
    nested_path(alloc, DEPTH, level, c)
}
