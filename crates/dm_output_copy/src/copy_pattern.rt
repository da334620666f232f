//! Copies of patterns, as nodes.

ghost use Rattle.std.specs.Prelude.{◌≡◌, IfOk, map};
ghost use Rattle.dm_output.specs.declared.pattern.Pattern.TheViews.{out-NamedPattern};
ghost use Rattle.dm_output.specs.Views.{pattern_view, named_view};

use crate::clone_emitted::CloneEmitted;
use crate::node::{made, made_of_two, tree_of, with_part};
use dm_copy::{CloneIn, both};
use dm_gather::Gathers;
use dm_output::{NamedPattern, Pattern};
use dm_pattern_nodes::make::{
    bind, named_part, named_pattern, pair_of, path_of, str_pattern, tuple_pattern, wild,
};
use dm_pattern_nodes::node::{NamedNode, NamedNodes, PatternNode, PatternNodes};
use dm_stream::Made;
use std::alloc::Global;

impl<'a> CloneEmitted for Pattern<'a> {
    ghost use Rattle.dm_output.specs.Output.{PatternTree};

    ghost Shape = { PatternTree };

    ghost shape = { pattern_view };

    fn clone_in(&self, alloc: Global) -> Made<Self> {
        tree_of(copy_pattern(self, alloc))
    }
}

impl<'a> CloneEmitted for NamedPattern<'a> {
    ghost use Rattle.dm_stream.specs.declared.tokens.Ident.{Ident};
    ghost use Rattle.dm_output.specs.Output.{PatternTree};

    ghost Shape = { Ident × PatternTree };

    ghost shape = { named_view };

    fn clone_in(&self, alloc: Global) -> Made<Self> {
        tree_of(field_of(self, alloc, copy_pattern(&self.pattern, alloc)))
    }
}

#[cycle(copy_pattern)]
fn copy_pattern<'a>(pattern: &Pattern<'a>, alloc: Global) -> Made<PatternNode<'a>>
    ensures { IfOk result (λ r. pattern_view r ≡ pattern_view pattern.now) }
{
    match pattern {
        Pattern::Wild => wild(alloc),
        Pattern::Bind(how, name) => made_of_two(alloc, Ok(*how), name.clone_in(alloc), bind),
        Pattern::Str(text) => made(alloc, text.clone_in(alloc), str_pattern),
        Pattern::Path(path) => made(alloc, path.clone_in(alloc), path_of),
        Pattern::Tuple(path, all) => {
            let all = copy_patterns(all.as_slice(), alloc);
            made_of_two(alloc, path.clone_in(alloc), all, tuple_pattern)
        }
        Pattern::Named(path, all, rest) => {
            let fields = both(copy_fields(all.as_slice(), alloc), Ok(*rest));
            made_of_two(alloc, path.clone_in(alloc), fields, named_pattern)
        }
        Pattern::Pair(left, right) => {
            let left = copy_pattern(left, alloc);
            made_of_two(alloc, left, copy_pattern(right, alloc), pair_of)
        }
    }
}

#[cycle(copy_pattern)]
pub(crate) fn copy_patterns<'a>(all: &[Pattern<'a>], alloc: Global) -> Made<PatternNodes<'a>>
    ensures { IfOk result (λ r. map pattern_view r ≡ map pattern_view all.now) }
{
    let mut found: PatternNodes<'a> = Gathers::none(alloc);
    for pattern in all {
        found = with_part(found, copy_pattern(pattern, alloc))?;
    }
    Ok(found)
}

#[cycle(copy_pattern)]
fn copy_fields<'a>(all: &[NamedPattern<'a>], alloc: Global) -> Made<NamedNodes<'a>>
    ensures { IfOk result (λ r. map named_view r ≡ map named_view all.now) }
{
    let mut found: NamedNodes<'a> = Gathers::none(alloc);
    for field in all {
        let pattern = copy_pattern(&field.pattern, alloc);
        found = with_part(found, field_of(field, alloc, pattern))?;
    }
    Ok(found)
}

/// The copy of a field, of a copy of its pattern.
fn field_of<'a>(
    field: &NamedPattern<'a>,
    alloc: Global,
    pattern: Made<PatternNode<'a>>,
) -> Made<NamedNode<'a>>
    requires { IfOk pattern (λ p. pattern_view p ≡ pattern_view (out-NamedPattern field.now).pattern) }
    ensures { IfOk result (λ r. named_view r ≡ named_view field.now) }
{
    made_of_two(alloc, field.name.clone_in(alloc), pattern, named_part)
}
