//! Types of one part: `dyn`, `impl`, `_`, `!`, a path, and a macro call.
#![tactic(auto)]

ghost use Rattle.std.specs.Prelude.{◌≡◌, ◌≤◌, map, false};
ghost use Rattle.dm_ast.specs.Tree.{bounds_of, trait_object, impl_trait, infer, never, path, no_self, macro_type};
ghost use Rattle.dm_read_paths.specs.TypeReaders as types;
ghost use Rattle.dm_read_paths.specs.Prelude.{deepest, node_view, path_view, bound_view, Reads, read_type, Nests};

use crate::rules::Types;
use dm_ast::{Bound, Path, PlainPath, Ty, TyNode};
use dm_input::Input;
use dm_input::join::joined;
use dm_read_paths::kind::Mode;
use dm_stream::{Delim, Punctuated, Read, Seq, TokenStream};

/// `dyn` and bounds.
#[tactic(auto, using(crate::proofs::Built::built_steps))]
fn object_node<'a>(items: Seq<Bound<'a>>) -> TyNode<'a>
    ensures { node_view result ≡ trait_object (bounds_of (map bound_view items.entry)) false }
{
    TyNode::TraitObject(Punctuated {
        items,
        trailing: false,
    })
}

/// `impl` and bounds.
#[tactic(auto, using(crate::proofs::Built::built_steps))]
fn implied_node<'a>(items: Seq<Bound<'a>>) -> TyNode<'a>
    ensures { node_view result ≡ impl_trait (bounds_of (map bound_view items.entry)) false }
{
    TyNode::ImplTrait(Punctuated {
        items,
        trailing: false,
    })
}

/// `_`.
#[tactic(auto, using(dm_ast::proofs::View::view_steps))]
fn infer_node<'a>() -> TyNode<'a>
    ensures { node_view result ≡ infer }
{
    TyNode::Infer
}

/// `!`.
#[tactic(auto, using(dm_ast::proofs::View::view_steps))]
fn never_node<'a>() -> TyNode<'a>
    ensures { node_view result ≡ never }
{
    TyNode::Never
}

/// A path as a type.
#[tactic(auto, using(crate::proofs::Built::built_steps))]
pub fn path_node<'a>(found: Path<'a>) -> TyNode<'a>
    ensures { node_view result ≡ path no_self (path_view found.entry) }
{
    TyNode::Path(None, found)
}

/// A macro call as a type.
#[tactic(auto, using(dm_ast::proofs::View::view_steps))]
fn call_node<'a>(path: PlainPath<'a>, delim: Delim, inside: TokenStream<'a>) -> TyNode<'a>
    ensures { node_view result ≡ macro_type path.entry delim inside.entry }
{
    TyNode::Macro(path, delim, inside)
}

/// `_` as a type.
pub fn infer_type<'a>(input: &mut Input<'_, 'a>) -> Read<TyNode<'a>>
    ensures { Reads node_view types.read_infer input.old result input.new }
{
    input.word("_")?;
    Ok(infer_node())
}

/// `!` as a type.
pub fn never_type<'a>(input: &mut Input<'_, 'a>) -> Read<TyNode<'a>>
    ensures { Reads node_view types.read_never input.old result input.new }
{
    input.punct('!')?;
    Ok(never_node())
}

/// `!` and a group.
fn behind_bang<'a>(input: &mut Input<'_, 'a>) -> Read<(Delim, TokenStream<'a>)>
    ensures { Reads (λ v. v) types.read_behind_bang input.old result input.new }
{
    input.punct('!')?;
    input.kept()
}

/// A macro's path, `!` and a group.
fn call_parts<'a>(input: &mut Input<'_, 'a>) -> Read<(PlainPath<'a>, (Delim, TokenStream<'a>))>
    ensures { Reads (λ v. v) types.read_call_parts input.old result input.new }
{
    let path = input.plain_path()?;
    joined(path, behind_bang(input))
}

/// A macro call as a type.
pub fn call_type<'a>(input: &mut Input<'_, 'a>) -> Read<TyNode<'a>>
    ensures { Reads node_view types.read_macro_type input.old result input.new }
{
    let (path, (delim, inside)) = call_parts(input)?;
    Ok(call_node(path, delim, inside))
}

impl<'a, F: for<'t> Fn(&mut Input<'t, 'a>, usize, Mode) -> Read<Ty<'a>>> Types<F> {
    /// Bounds of a `dyn` or an `impl`: their tokens stand one level deeper.
    #[tactic(auto, using(dm_input::proofs::Levels::level_steps))]
    fn deep_bounds(&self, single: bool, input: &mut Input<'_, 'a>) -> Read<Seq<Bound<'a>>>
        requires level { input.old.at.level ≤ deepest }
        requires nests { Nests self.now.grammar.depth (F.pre self.now.grammar.ty) (F.post self.now.grammar.ty) }
        ensures { Reads (λ l. bounds_of (map bound_view l)) (types.read_deep_bounds (read_type self.now.grammar.depth) single) input.old result input.new }
    {
        input.down();
        let found = self.grammar.some_bounds(single, input)?;
        input.up();
        Ok(found)
    }

    /// `dyn` and bounds.
    pub fn object(&self, single: bool, input: &mut Input<'_, 'a>) -> Read<TyNode<'a>>
        requires { Nests self.now.grammar.depth (F.pre self.now.grammar.ty) (F.post self.now.grammar.ty) }
        ensures { Reads node_view (types.read_object (read_type self.now.grammar.depth) single) input.old result input.new }
    {
        input.word("dyn")?;
        Ok(object_node(self.deep_bounds(single, input)?))
    }

    /// `impl` and bounds.
    pub fn implied(&self, single: bool, input: &mut Input<'_, 'a>) -> Read<TyNode<'a>>
        requires { Nests self.now.grammar.depth (F.pre self.now.grammar.ty) (F.post self.now.grammar.ty) }
        ensures { Reads node_view (types.read_implied (read_type self.now.grammar.depth) single) input.old result input.new }
    {
        input.word("impl")?;
        Ok(implied_node(self.deep_bounds(single, input)?))
    }

    /// A path as a type.
    pub fn path_type(&self, input: &mut Input<'_, 'a>) -> Read<TyNode<'a>>
        requires { Nests self.now.grammar.depth (F.pre self.now.grammar.ty) (F.post self.now.grammar.ty) }
        ensures { Reads node_view (types.read_path_type (read_type self.now.grammar.depth)) input.old result input.new }
    {
        Ok(path_node(self.grammar.path(false, input)?))
    }
}
