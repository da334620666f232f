//! A parameter, by its sort and its name, in types.
#![tactic(auto, using(dm_ast::proofs::View::view_steps))]

ghost use Rattle.std.specs.Prelude.{◌≡◌, ◌||◌, map};
ghost use Rattle.std.specs.Option.{option_map};
ghost use Rattle.dm_ast.specs.declared.ty.Bound.TheViews.{out-BareFn};
ghost use Rattle.dm_ast.specs.Tree as tree;
ghost use Rattle.dm_searches.specs.Mentions as spec;

use crate::holds::{Holds, any_holds};
use crate::names::{Parameter, Sort, bare_first, some_named};
use crate::opaque::{in_attributes, in_constant, in_for, in_lifetime, in_tokens, is_lifetime};
use dm_ast::{
    BareFn, Bound, FnArg, GenericArgument, Path, PathArguments, PathSegment, QSelf, TraitBound, Ty,
    TyNode,
};
use dm_stream::Punctuated;

/// Whether the path of a path type is the parameter, or for a type parameter begins with it.
fn is_path(path: &Path<'_>, name: &str, sort: Sort) -> bool
    ensures { result ≡ spec.is_path sort name.now (tree.path_view path.now) }
{
    match sort {
        Sort::Ty => some_named(bare_first(path.segments.as_slice()), name),
        Sort::Lifetime => false,
        Sort::Const => some_named(path.get_ident(), name),
    }
}

/// Whether a type mentions a parameter.
pub fn in_type(ty: &Ty<'_>, name: &str, sort: Sort) -> bool
    ensures { result ≡ spec.in_type sort name.now (tree.ty_view ty.now) }
{
    ty.holds(Parameter { name, sort })
}

impl<'n> Holds<Parameter<'n>> for Ty<'_> {
    ghost held = { λ p t. spec.in_type p.sort p.name.now (tree.ty_view t) };

    #[cycle(mentions)]
    fn holds(&self, sought: Parameter<'n>) -> bool {
        in_node(&self.node, sought)
    }
}

#[cycle(mentions)]
fn in_node(node: &TyNode<'_>, sought: Parameter<'_>) -> bool
    ensures { result ≡ spec.in_node sought.entry.sort sought.entry.name.now (tree.node_view node.now) }
{
    match node {
        TyNode::Paren(inner) => inner.holds(sought),
        TyNode::Tuple(all) => any_holds(&all.items, sought),
        TyNode::Slice(inner) => inner.holds(sought),
        TyNode::Array(inner, size) => inner.holds(sought)
            || in_tokens(&size.tokens, sought.name, sought.sort),
        TyNode::Reference(lifetime, _, inner) => {
            in_lifetime(lifetime, sought.name, sought.sort) || inner.holds(sought)
        }
        TyNode::Pointer(_, inner) => inner.holds(sought),
        TyNode::BareFn(function) => in_function(function, sought),
        TyNode::TraitObject(all) => any_holds(&all.items, sought),
        TyNode::ImplTrait(all) => any_holds(&all.items, sought),
        TyNode::Infer => false,
        TyNode::Never => false,
        TyNode::Path(qself, path) => {
            let is_found = is_path(path, sought.name, sought.sort);
            match qself {
                None => is_found || in_path(path, sought),
                Some(qself) => is_found || in_self(qself, sought) || in_path(path, sought),
            }
        }
        TyNode::Macro(_, _, tokens) => in_tokens(tokens, sought.name, sought.sort),
    }
}

#[cycle(mentions)]
fn in_self(qself: &QSelf<'_>, sought: Parameter<'_>) -> bool
    ensures { result ≡ spec.in_type sought.entry.sort sought.entry.name.now (tree.ty_view qself.now.ty) }
{
    qself.ty.holds(sought)
}

#[cycle(mentions)]
fn in_function(function: &BareFn<'_>, sought: Parameter<'_>) -> bool
    ensures { result ≡ spec.in_function sought.entry.sort sought.entry.name.now (tree.fn_view function.now) }
{
    in_for(&function.lifetimes, sought.name, sought.sort) || in_signature(function, sought)
}

/// In what a function takes and gives.
#[cycle(mentions)]
fn in_signature(function: &BareFn<'_>, sought: Parameter<'_>) -> bool
    ensures { result ≡ (spec.in_inputs sought.entry.sort sought.entry.name.now (tree.inputs_of (map tree.input_view (out-BareFn function.now).inputs.items)) ||
        spec.in_output sought.entry.sort sought.entry.name.now (tree.maybe_type (option_map tree.ty_view (out-BareFn function.now).output))) }
{
    match &function.output {
        None => any_holds(&function.inputs.items, sought),
        Some(ty) => any_holds(&function.inputs.items, sought) || ty.holds(sought),
    }
}

impl<'n> Holds<Parameter<'n>> for FnArg<'_> {
    ghost held = { λ p i. spec.in_input p.sort p.name.now (tree.input_view i) };

    #[cycle(mentions)]
    fn holds(&self, sought: Parameter<'n>) -> bool {
        in_attributes(self.attrs.as_slice(), sought.name, sought.sort) || self.ty.holds(sought)
    }
}

impl<'n> Holds<Parameter<'n>> for Bound<'_> {
    ghost held = { λ p b. spec.in_bound p.sort p.name.now (tree.bound_view b) };

    #[cycle(mentions)]
    fn holds(&self, sought: Parameter<'n>) -> bool {
        match self {
            Bound::Lifetime(lifetime) => is_lifetime(lifetime, sought.name, sought.sort),
            Bound::Trait(bound) => in_trait(bound, sought),
        }
    }
}

#[cycle(mentions)]
fn in_trait(bound: &TraitBound<'_>, sought: Parameter<'_>) -> bool
    ensures { result ≡ spec.in_trait sought.entry.sort sought.entry.name.now (tree.trait_view bound.now) }
{
    in_for(&bound.lifetimes, sought.name, sought.sort) || in_path(&bound.path, sought)
}

#[cycle(mentions)]
fn in_path(path: &Path<'_>, sought: Parameter<'_>) -> bool
    ensures { result ≡ spec.in_path sought.entry.sort sought.entry.name.now (tree.path_view path.now) }
{
    any_holds(&path.segments, sought)
}

impl<'n> Holds<Parameter<'n>> for PathSegment<'_> {
    ghost held = { λ p s. spec.in_segment p.sort p.name.now (tree.segment_view s) };

    #[cycle(mentions)]
    fn holds(&self, sought: Parameter<'n>) -> bool {
        in_arguments(&self.arguments, sought)
    }
}

#[cycle(mentions)]
fn in_arguments(arguments: &PathArguments<'_>, sought: Parameter<'_>) -> bool
    ensures { result ≡ spec.in_segment_arguments sought.entry.sort sought.entry.name.now (tree.arguments_view arguments.now) }
{
    match arguments {
        PathArguments::Absent => false,
        PathArguments::Angle(_, all) => any_holds(&all.items, sought),
        PathArguments::Paren(all, output) => match output {
            None => any_holds(&all.items, sought),
            Some(ty) => any_holds(&all.items, sought) || ty.holds(sought),
        },
    }
}

#[cycle(mentions)]
fn in_maybe(arguments: &Option<Punctuated<GenericArgument<'_>>>, sought: Parameter<'_>) -> bool
    ensures { result ≡ spec.in_maybe_arguments sought.entry.sort sought.entry.name.now (tree.maybe_arguments_view arguments.now) }
{
    match arguments {
        None => false,
        Some(all) => any_holds(&all.items, sought),
    }
}

impl<'n> Holds<Parameter<'n>> for GenericArgument<'_> {
    ghost held = { λ p a. spec.in_argument p.sort p.name.now (tree.argument_view a) };

    #[cycle(mentions)]
    fn holds(&self, sought: Parameter<'n>) -> bool {
        match self {
            GenericArgument::Lifetime(lifetime) => is_lifetime(lifetime, sought.name, sought.sort),
            GenericArgument::Ty(ty) => ty.holds(sought),
            GenericArgument::Const(constant) => in_constant(constant, sought.name, sought.sort),
            GenericArgument::AssocTy(_, arguments, ty) => {
                in_maybe(arguments, sought) || ty.holds(sought)
            }
            GenericArgument::AssocConst(_, arguments, constant) => {
                in_maybe(arguments, sought) || in_constant(constant, sought.name, sought.sort)
            }
            GenericArgument::Constraint(_, arguments, bounds) => {
                in_maybe(arguments, sought) || any_holds(&bounds.items, sought)
            }
        }
    }
}
