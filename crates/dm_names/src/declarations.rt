//! The first place in a declaration where something stands that may not stand.
#![tactic(auto, using(crate::proofs::DeclaredPlaces::declared_steps))]

ghost use Rattle.std.specs.Prelude.{◌≡◌, ◌∷◌, [], ◌++◌, map, flat_map, option_map};
ghost use Rattle.dm_ast.specs.Tree.{ty_view, bound_view};
ghost use Rattle.dm_ast.specs.Declarations as tree;
ghost use Rattle.dm_ast.specs.Names as names;
ghost use Rattle.dm_names.specs.NamePlaces.{first_place};
ghost use Rattle.dm_names.specs.declared.places.Wanted.TheVariants.{Either};

use crate::places::{Wanted, in_bounds, in_for, in_type, plain_place};
use dm_ast::{Bound, Data, DeriveInput, Field, Fields, GenericParam, Ty, Variant, WherePredicate};
use dm_stream::{Ident, Punctuated, Span};

/// The place of a name that stands among the types.
fn type_name(wanted: Wanted, ident: &Ident<'_>) -> Option<Span>
    ensures { result ≡ first_place wanted (names.declared names.types ident.now ∷ []) }
{
    match wanted {
        Wanted::MacroType => None,
        Wanted::Reserved | Wanted::Either => {
            if ident.name.is_same("derive_more") {
                Some(ident.span)
            } else {
                plain_place(wanted, ident.name.as_str(), ident.span)
            }
        }
    }
}

fn in_listed_bounds(wanted: Wanted, bounds: &Option<Punctuated<Bound<'_>>>) -> Option<Span>
    ensures { result ≡ first_place wanted (names.in_some names.in_bound_list (option_map (tree.listed bound_view) bounds.now)) }
{
    match bounds {
        None => None,
        Some(all) => in_bounds(wanted, all.items.as_slice()),
    }
}

fn in_some_type(wanted: Wanted, ty: &Option<Ty<'_>>) -> Option<Span>
    ensures { result ≡ first_place wanted (names.in_some names.in_type (option_map ty_view ty.now)) }
{
    match ty {
        None => None,
        Some(ty) => in_type(wanted, ty),
    }
}

fn in_param(wanted: Wanted, param: &GenericParam<'_>) -> Option<Span>
    ensures { result ≡ first_place wanted (names.in_param (tree.param_view param.now)) }
{
    match param {
        GenericParam::Lifetime(p) => {
            plain_place(wanted, p.lifetime.name.as_str(), p.lifetime.span)
        }
        GenericParam::Ty(p) => {
            let bounds = in_listed_bounds(wanted, &p.bounds);
            let default_ty = in_some_type(wanted, &p.default_ty);
            type_name(wanted, &p.ident).or(bounds.or(default_ty))
        }
        GenericParam::Const(p) => type_name(wanted, &p.ident).or(in_type(wanted, &p.ty)),
    }
}

fn in_params(wanted: Wanted, all: &[GenericParam<'_>]) -> Option<Span>
    ensures { result ≡ first_place wanted (flat_map names.in_param (map tree.param_view all.now)) }
{
    for item in all {
        if let Some(span) = in_param(wanted, item) {
            return Some(span);
        }
    }
    None
}

fn in_predicate(wanted: Wanted, predicate: &WherePredicate<'_>) -> Option<Span>
    ensures { result ≡ first_place wanted (names.in_predicate (tree.predicate_view predicate.now)) }
{
    match predicate {
        WherePredicate::Lifetime(_, _) => None,
        WherePredicate::Ty(lifetimes, ty, bounds) => {
            let bounded = in_bounds(wanted, bounds.items.as_slice());
            in_for(wanted, lifetimes).or(in_type(wanted, ty).or(bounded))
        }
    }
}

fn in_predicates(wanted: Wanted, all: &[WherePredicate<'_>]) -> Option<Span>
    ensures { result ≡ first_place wanted (flat_map names.in_predicate (map tree.predicate_view all.now)) }
{
    for item in all {
        if let Some(span) = in_predicate(wanted, item) {
            return Some(span);
        }
    }
    None
}

fn in_where(wanted: Wanted, clause: &Option<Punctuated<WherePredicate<'_>>>) -> Option<Span>
    ensures { result ≡ first_place wanted (names.in_where (option_map (tree.listed tree.predicate_view) clause.now)) }
{
    match clause {
        None => None,
        Some(all) => in_predicates(wanted, all.items.as_slice()),
    }
}

fn in_field(wanted: Wanted, field: &Field<'_>) -> Option<Span>
    ensures { result ≡ first_place wanted (names.in_field 0 (tree.field_view field.now)) }
{
    let inside = in_type(wanted, &field.ty);
    match &field.ident {
        None => inside,
        Some(ident) => plain_place(wanted, ident.name.as_str(), ident.span).or(inside),
    }
}

fn in_all_fields(wanted: Wanted, all: &[Field<'_>]) -> Option<Span>
    ensures { result ≡ first_place wanted (flat_map (names.in_field 0) (map tree.field_view all.now)) }
{
    for item in all {
        if let Some(span) = in_field(wanted, item) {
            return Some(span);
        }
    }
    None
}

fn in_fields(wanted: Wanted, fields: &Fields<'_>) -> Option<Span>
    ensures { result ≡ first_place wanted (names.in_fields 0 (tree.fields_view fields.now)) }
{
    match fields {
        Fields::Named(all) => in_all_fields(wanted, all.items.as_slice()),
        Fields::Unnamed(all) => in_all_fields(wanted, all.items.as_slice()),
        Fields::Unit => None,
    }
}

fn in_variant(wanted: Wanted, variant: &Variant<'_>) -> Option<Span>
    ensures { result ≡ first_place wanted (names.declared names.variants variant.now.ident ∷ names.in_fields 0 (tree.fields_view variant.now.fields)) }
{
    let inside = in_fields(wanted, &variant.fields);
    plain_place(wanted, variant.ident.name.as_str(), variant.ident.span).or(inside)
}

fn in_variants(wanted: Wanted, all: &[Variant<'_>]) -> Option<Span>
    ensures { result ≡ first_place wanted (names.in_variants 0 (map tree.variant_view all.now)) }
{
    for item in all {
        if let Some(span) = in_variant(wanted, item) {
            return Some(span);
        }
    }
    None
}

fn in_shape(
    wanted: Wanted,
    shape: &Data<'_>,
    clause: &Option<Punctuated<WherePredicate<'_>>>,
) -> Option<Span>
    ensures { result ≡ first_place wanted (names.in_shape (tree.shape_view shape.now) (option_map (tree.listed tree.predicate_view) clause.now)) }
{
    let behind = in_where(wanted, clause);
    match shape {
        Data::Struct(s) => {
            let inside = in_fields(wanted, &s.fields);
            match &s.fields {
                Fields::Named(_) => behind.or(inside),
                Fields::Unnamed(_) => inside.or(behind),
                Fields::Unit => behind,
            }
        }
        Data::Enum(e) => behind.or(in_variants(wanted, e.variants.items.as_slice())),
        Data::Union(u) => behind.or(in_all_fields(wanted, u.fields.items.as_slice())),
    }
}

/// The first place in a declaration.
pub fn in_declaration(wanted: Wanted, input: &DeriveInput<'_>) -> Option<Span>
    ensures { result ≡ first_place wanted (names.found (tree.declaration_view input.now)) }
{
    let params = in_params(wanted, input.generics.params.items.as_slice());
    let shape = in_shape(wanted, &input.shape, &input.generics.where_clause);
    type_name(wanted, &input.ident).or(params.or(shape))
}

/// The first such place in a declaration, where it is known whether there is any place of either kind.
#[tactic(auto, using(crate::proofs::NamePlaces::neither))]
pub fn place_of(wanted: Wanted, any: Option<Span>, input: &DeriveInput<'_>) -> Option<Span>
    requires { any ≡ first_place Either (names.found (tree.declaration_view input.now)) }
    ensures { result ≡ first_place wanted (names.found (tree.declaration_view input.now)) }
{
    match any {
        None => None,
        Some(_) => in_declaration(wanted, input),
    }
}
