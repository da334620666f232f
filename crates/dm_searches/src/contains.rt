//! Type parameters in types.
#![tactic(auto, using(dm_ast::proofs::View::view_steps))]

ghost use Rattle.std.specs.Prelude.{◌≡◌, map};
ghost use Rattle.dm_ast.specs.Tree as tree;
ghost use Rattle.dm_searches.specs.Contains as spec;
ghost use Rattle.dm_searches.specs.Parameters.{lent};

use crate::holds::{Holds, any_holds};
use crate::names::{bare_first, some_named};
use dm_ast::{
    BareFn, Bound, FnArg, GenericArgument, Path, PathArguments, PathSegment, QSelf, Ty, TyNode,
};
use dm_stream::{Ident, Seq};

/// Whether a type contains one of these type parameters, whose names are compared without `r#`.
///
/// It does where it is a path type that is a parameter, or whose first segment is one without arguments, as in `T::Item`; or where a
/// qualified self, an element of an array, a slice, a reference, a pointer or parentheses, a part of a tuple, an input or the output of a
/// function type, or the path of a trait of a `dyn` does, or, in a path, a type argument, the type of an associated type, or a type in
/// the parentheses of a path or behind them. Nothing else counts, and nothing in an `impl`.
pub fn contains_generics(ty: &Ty<'_>, params: &[&Ident<'_>]) -> bool
    ensures { result ≡ spec.contains (lent params.now) (tree.ty_view ty.now) }
{
    for item in params {
        if ty.holds(item.name.as_str()) {
            return true;
        }
    }
    false
}

/// Whether a path contains one of these type parameters: it begins with one that has no arguments, or one of its arguments contains one,
/// as `contains_generics` says.
pub fn path_contains_generics(path: &Path<'_>, params: &[&Ident<'_>]) -> bool
    ensures { result ≡ spec.path_contains (lent params.now) (tree.path_view path.now) }
{
    for item in params {
        if in_path(path, item.name.as_str()) {
            return true;
        }
    }
    false
}

/// What `contains_generics` answers for the parameters of a list.
#[tactic(auto, using(crate::proofs::Lent::none_left))]
pub fn contains_any(params: &Seq<&Ident<'_>>, ty: &Ty<'_>) -> bool
    ensures { result ≡ spec.contains (lent params.now) (tree.ty_view ty.now) }
{
    for item in params.iter() {
        if ty.holds(item.name.as_str()) {
            return true;
        }
    }
    false
}

/// What `path_contains_generics` answers for the parameters of a list.
#[tactic(auto, using(crate::proofs::Lent::none_left))]
pub fn path_contains_any(params: &Seq<&Ident<'_>>, path: &Path<'_>) -> bool
    ensures { result ≡ spec.path_contains (lent params.now) (tree.path_view path.now) }
{
    for item in params.iter() {
        if in_path(path, item.name.as_str()) {
            return true;
        }
    }
    false
}

impl<'n> Holds<&'n str> for Ty<'_> {
    ghost held = { λ n t. spec.in_type n.now (tree.ty_view t) };

    #[cycle(contains)]
    fn holds(&self, name: &'n str) -> bool {
        in_node(&self.node, name)
    }
}

#[cycle(contains)]
fn in_node(node: &TyNode<'_>, name: &str) -> bool
    ensures { result ≡ spec.in_node name.now (tree.node_view node.now) }
{
    match node {
        TyNode::Paren(inner) => inner.holds(name),
        TyNode::Tuple(all) => any_holds(&all.items, name),
        TyNode::Slice(inner) => inner.holds(name),
        TyNode::Array(inner, _) => inner.holds(name),
        TyNode::Reference(_, _, inner) => inner.holds(name),
        TyNode::Pointer(_, inner) => inner.holds(name),
        TyNode::BareFn(function) => in_function(function, name),
        TyNode::TraitObject(all) => any_holds(&all.items, name),
        TyNode::ImplTrait(_) => false,
        TyNode::Infer => false,
        TyNode::Never => false,
        TyNode::Path(qself, path) => match qself {
            None => in_path(path, name),
            Some(qself) => in_self(qself, name) || in_path(path, name),
        },
        TyNode::Macro(_, _, _) => false,
    }
}

#[cycle(contains)]
fn in_self(qself: &QSelf<'_>, name: &str) -> bool
    ensures { result ≡ spec.in_type name.now (tree.ty_view qself.now.ty) }
{
    qself.ty.holds(name)
}

#[cycle(contains)]
fn in_function(function: &BareFn<'_>, name: &str) -> bool
    ensures { result ≡ spec.in_function name.now (tree.fn_view function.now) }
{
    match &function.output {
        None => any_holds(&function.inputs.items, name),
        Some(ty) => any_holds(&function.inputs.items, name) || ty.holds(name),
    }
}

impl<'n> Holds<&'n str> for FnArg<'_> {
    ghost held = { λ n i. spec.in_input n.now (tree.input_view i) };

    #[cycle(contains)]
    fn holds(&self, name: &'n str) -> bool {
        self.ty.holds(name)
    }
}

impl<'n> Holds<&'n str> for Bound<'_> {
    ghost held = { λ n b. spec.in_bound n.now (tree.bound_view b) };

    #[cycle(contains)]
    fn holds(&self, name: &'n str) -> bool {
        match self {
            Bound::Lifetime(_) => false,
            Bound::Trait(bound) => in_path(&bound.path, name),
        }
    }
}

#[cycle(contains)]
fn in_path(path: &Path<'_>, name: &str) -> bool
    ensures { result ≡ spec.in_path name.now (tree.path_view path.now) }
{
    some_named(bare_first(path.segments.as_slice()), name) || any_holds(&path.segments, name)
}

impl<'n> Holds<&'n str> for PathSegment<'_> {
    ghost held = { λ n s. spec.in_segment n.now (tree.segment_view s) };

    #[cycle(contains)]
    fn holds(&self, name: &'n str) -> bool {
        in_arguments(&self.arguments, name)
    }
}

#[cycle(contains)]
fn in_arguments(arguments: &PathArguments<'_>, name: &str) -> bool
    ensures { result ≡ spec.in_segment_arguments name.now (tree.arguments_view arguments.now) }
{
    match arguments {
        PathArguments::Absent => false,
        PathArguments::Angle(_, all) => any_holds(&all.items, name),
        PathArguments::Paren(all, output) => match output {
            None => any_holds(&all.items, name),
            Some(ty) => any_holds(&all.items, name) || ty.holds(name),
        },
    }
}

impl<'n> Holds<&'n str> for GenericArgument<'_> {
    ghost held = { λ n a. spec.in_argument n.now (tree.argument_view a) };

    #[cycle(contains)]
    fn holds(&self, name: &'n str) -> bool {
        match self {
            GenericArgument::Lifetime(_) => false,
            GenericArgument::Ty(ty) => ty.holds(name),
            GenericArgument::Const(_) => false,
            GenericArgument::AssocTy(_, _, ty) => ty.holds(name),
            GenericArgument::AssocConst(_, _, _) => false,
            GenericArgument::Constraint(_, _, _) => false,
        }
    }
}
