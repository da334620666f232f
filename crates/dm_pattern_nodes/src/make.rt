//! Patterns of their parts.
#![tactic(auto, using(dm_output::proofs::View::view_steps))]

ghost use Rattle.std.specs.Prelude.{◌≡◌, IfOk, map};
ghost use Rattle.dm_ast.specs.Tree.{path_view};
ghost use Rattle.dm_output.specs.Output as tree;
ghost use Rattle.dm_output.specs.Views.{pattern_view, named_view};

use crate::node::{NamedNode, NamedNodes, PatternNode, PatternNodes};
use dm_ast::Path;
use dm_output::{Binding, NamedPattern, Pattern};
use dm_stream::{Ident, Literal, Made};
use std::alloc::Global;

/// `_`
pub fn wild<'a>(alloc: Global) -> Made<PatternNode<'a>>
    ensures { IfOk result (λ p. pattern_view p ≡ tree.wild) }
{
    Ok(PatternNode::new(alloc, Pattern::Wild)?)
}

/// `x`, `ref x` or `ref mut x`
pub fn bind<'a>(alloc: Global, how: Binding, name: Ident<'a>) -> Made<PatternNode<'a>>
    ensures { IfOk result (λ p. pattern_view p ≡ tree.bind how name.entry) }
{
    Ok(PatternNode::new(alloc, Pattern::Bind(how, name))?)
}

/// `"text"`
pub fn str_pattern<'a>(alloc: Global, text: Literal<'a>) -> Made<PatternNode<'a>>
    ensures { IfOk result (λ p. pattern_view p ≡ tree.str_pattern text.entry) }
{
    Ok(PatternNode::new(alloc, Pattern::Str(text))?)
}

/// A path as a pattern.
pub fn path_of<'a>(alloc: Global, path: Path<'a>) -> Made<PatternNode<'a>>
    ensures { IfOk result (λ p. pattern_view p ≡ tree.path_pattern (path_view path.entry)) }
{
    Ok(PatternNode::new(alloc, Pattern::Path(path))?)
}

/// `P(a, b,)`
pub fn tuple_pattern<'a>(
    alloc: Global,
    path: Path<'a>,
    parts: PatternNodes<'a>,
) -> Made<PatternNode<'a>>
    ensures { IfOk result (λ p. pattern_view p ≡ tree.tuple_pattern (path_view path.entry) (tree.patterns_of (map pattern_view parts.entry))) }
{
    Ok(PatternNode::new(alloc, Pattern::Tuple(path, parts.into_trees()))?)
}

/// `P { x: a, .. }`
pub fn named_pattern<'a>(
    alloc: Global,
    path: Path<'a>,
    fields: (NamedNodes<'a>, bool),
) -> Made<PatternNode<'a>>
    ensures { IfOk result (λ p. pattern_view p ≡ tree.named_pattern (path_view path.entry) (tree.named_of (map named_view fields.entry.0)) fields.entry.1) }
{
    let (fields, rest) = fields;
    Ok(PatternNode::new(alloc, Pattern::Named(path, fields.into_trees(), rest))?)
}

/// `(a, b)`
pub fn pair_of<'a>(
    alloc: Global,
    first: PatternNode<'a>,
    second: PatternNode<'a>,
) -> Made<PatternNode<'a>>
    ensures { IfOk result (λ p. pattern_view p ≡ tree.pair_pattern (pattern_view first.entry) (pattern_view second.entry)) }
{
    Ok(PatternNode::new(alloc, Pattern::Pair(first.into_box(), second.into_box()))?)
}

/// `x: a`
pub fn named_part<'a>(
    alloc: Global,
    name: Ident<'a>,
    pattern: PatternNode<'a>,
) -> Made<NamedNode<'a>>
    ensures { IfOk result (λ f. named_view f ≡ (name.entry, pattern_view pattern.entry)) }
{
    let pattern = pattern.into_tree();
    Ok(NamedNode::new(alloc, NamedPattern { name, pattern })?)
}
