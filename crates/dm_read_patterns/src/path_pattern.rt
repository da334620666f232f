//! Paths as patterns.
#![tactic(auto, using(dm_output::proofs::View::view_steps))]

ghost use Rattle.std.specs.Prelude.{◌≡◌, IfOk};
ghost use Rattle.dm_read_places.specs.Prelude.{path_view, pattern_view};
ghost use Rattle.dm_reread.specs.Reading as plain;
ghost use Rattle.dm_read_patterns.specs.PatternRows.{declared_name};

use dm_ast::{Path, PathSegment};
use dm_output::Binding;
use dm_pattern_nodes::make::{bind, path_of};
use dm_pattern_nodes::node::PatternNode;
use dm_read::words::is_name;
use dm_stream::{Ident, Made};
use std::alloc::Global;

/// The name that a path is, where it may be declared.
fn name_of<'a>(path: &Path<'a>, alloc: Global) -> Made<Option<Ident<'a>>>
    ensures { IfOk result (λ o. o ≡ declared_name (path_view path.now)) }
{
    let Some(ident) = path.get_ident() else {
        return Ok(None);
    };
    if !is_name(ident) {
        return Ok(None);
    }
    Ok(Some(ident.clone_in(alloc)?))
}

/// A name alone, which binds, or a path.
#[tactic(auto, using(crate::proofs::PatternSteps::path_steps))]
pub(crate) fn path_pattern<'a>(alloc: Global, path: Path<'a>) -> Made<PatternNode<'a>>
    ensures { IfOk result (λ r. pattern_view r ≡ plain.pattern_of_path (path_view path.entry)) }
{
    match name_of(&path, alloc) {
        Ok(Some(name)) => Ok(bind(alloc, Binding::Plain, name)?),
        Ok(None) => Ok(path_of(alloc, path)?),
        Err(error) => Err(error),
    }
}
