//! Whether a declaration's names may stand, in about linear time: the names that were seen stand in sets.
#![tactic(auto)]

ghost use Rattle.std.specs.Prelude.{◌≡◌, ◌||◌, ℕ, List, [], map, IfOk, OnOk, MatchResult};
ghost use Rattle.std.specs.Option.{option_or};
ghost use Rattle.std.specs.Str.{bytes_eq};
ghost use Rattle.dm_ast.specs.Declarations as tree;
ghost use Rattle.dm_ast.specs.Names.{Named, IsNamesError};
ghost use Rattle.dm_repeats.specs.Repeats as spec;
ghost use Rattle.dm_names.specs.SeenNames.{was_seen, label_seen, param_seen};

use crate::declarations::{in_declaration, place_of};
use crate::places::Wanted;
use dm_ast::{Data, DeriveInput, Field, Fields, GenericParam, Variant};
use dm_repeats::repeats::place_if;
use dm_stream::{Error, Ident, Kind, Made, Refusal, Span};
use std::alloc::{AllocError, Global};
use std::collections::HashSet;

/// Adds a name to those that were seen. The answer is whether it was among them.
fn see<'t>(seen: &mut HashSet<&'t str>, name: &'t str) -> Made<bool>
    ensures before { IfOk result (λ r. r ≡ was_seen seen.old name.now) }
    ensures after { OnOk result ((q : List ℕ) → was_seen seen.new q ≡ (bytes_eq name.now q || was_seen seen.old q)) }
{
    match seen.insert(name) {
        Ok(is_new) => Ok(!is_new),
        Err(_) => Err(AllocError),
    }
}

/// Adds a field's name, if it has one. The answer is its place if it was seen before.
fn see_label<'t>(ident: &'t Option<Ident<'_>>, seen: &mut HashSet<&'t str>) -> Made<Option<Span>>
    ensures before { IfOk result (λ r. r ≡ label_seen (was_seen seen.old) ident.now) }
    ensures after { OnOk result ((q : List ℕ) → was_seen seen.new q ≡ (spec.is_called q ident.now || was_seen seen.old q)) }
{
    match ident {
        None => Ok(None),
        Some(ident) => {
            let is_there = see(seen, ident.name.as_str())?;
            Ok(place_if(is_there, ident.span))
        }
    }
}

fn field_seen_again(alloc: Global, all: &[Field<'_>]) -> Made<Option<Span>>
    ensures { IfOk result (λ r. r ≡ spec.repeats spec.field_again [] (map tree.field_view all.now)) }
{
    let mut seen = HashSet::new(alloc);
    for field in all {
        if let Some(span) = see_label(&field.ident, &mut seen)? {
            return Ok(Some(span));
        }
    }
    Ok(None)
}

fn seen_again_in_fields(alloc: Global, fields: &Fields<'_>) -> Made<Option<Span>>
    ensures { IfOk result (λ r. r ≡ spec.repeated_in_fields (tree.fields_view fields.now)) }
{
    match fields {
        Fields::Named(all) => field_seen_again(alloc, all.items.as_slice()),
        Fields::Unnamed(all) => field_seen_again(alloc, all.items.as_slice()),
        Fields::Unit => Ok(None),
    }
}

/// Adds a variant's name. The answer is its place if it was seen before, else that of the variant's first field that
/// is declared again.
fn see_variant<'t>(
    alloc: Global,
    variant: &'t Variant<'_>,
    seen: &mut HashSet<&'t str>,
) -> Made<Option<Span>>
    ensures before { IfOk result (λ r. r ≡ option_or (spec.place_if (was_seen seen.old variant.now.ident.name) variant.now.ident.span) (spec.repeated_in_fields (tree.fields_view variant.now.fields))) }
    ensures after { OnOk result ((q : List ℕ) → was_seen seen.new q ≡ (bytes_eq variant.now.ident.name q || was_seen seen.old q)) }
{
    let is_there = see(seen, variant.ident.name.as_str())?;
    let inside = seen_again_in_fields(alloc, &variant.fields)?;
    Ok(place_if(is_there, variant.ident.span).or(inside))
}

fn variant_seen_again(alloc: Global, all: &[Variant<'_>]) -> Made<Option<Span>>
    ensures { IfOk result (λ r. r ≡ spec.repeats spec.variant_again [] (map tree.variant_view all.now)) }
{
    let mut seen = HashSet::new(alloc);
    for variant in all {
        if let Some(span) = see_variant(alloc, variant, &mut seen)? {
            return Ok(Some(span));
        }
    }
    Ok(None)
}

/// Adds a parameter's name to the lifetimes, or to the types and constants. The answer is its place if it was seen before.
fn see_param<'t>(
    param: &'t GenericParam<'_>,
    lifetimes: &mut HashSet<&'t str>,
    types: &mut HashSet<&'t str>,
) -> Made<Option<Span>>
    ensures before { IfOk result (λ r. r ≡ param_seen (was_seen lifetimes.old) (was_seen types.old) (tree.param_view param.now)) }
    ensures lifetimes { OnOk result ((q : List ℕ) → was_seen lifetimes.new q ≡ (spec.is_lifetime_called q (tree.param_view param.now) || was_seen lifetimes.old q)) }
    ensures types { OnOk result ((q : List ℕ) → was_seen types.new q ≡ (spec.is_type_called q (tree.param_view param.now) || was_seen types.old q)) }
{
    match param {
        GenericParam::Lifetime(p) => {
            let is_there = see(lifetimes, p.lifetime.name.as_str())?;
            Ok(place_if(is_there, p.lifetime.span))
        }
        GenericParam::Ty(p) => {
            let is_there = see(types, p.ident.name.as_str())?;
            Ok(place_if(is_there, p.ident.span))
        }
        GenericParam::Const(p) => {
            let is_there = see(types, p.ident.name.as_str())?;
            Ok(place_if(is_there, p.ident.span))
        }
    }
}

fn param_seen_again(
    alloc: Global,
    all: &[GenericParam<'_>],
    type_name: &Ident<'_>,
) -> Made<Option<Span>>
    ensures { IfOk result (λ r. r ≡ spec.repeats (spec.param_again type_name.now) [] (map tree.param_view all.now)) }
{
    let mut lifetimes = HashSet::new(alloc);
    let mut types = HashSet::new(alloc);
    see(&mut types, type_name.name.as_str())?;
    for param in all {
        if let Some(span) = see_param(param, &mut lifetimes, &mut types)? {
            return Ok(Some(span));
        }
    }
    Ok(None)
}

fn seen_again_in_shape(alloc: Global, shape: &Data<'_>) -> Made<Option<Span>>
    ensures { IfOk result (λ r. r ≡ spec.repeated_in_shape (tree.shape_view shape.now)) }
{
    match shape {
        Data::Struct(s) => seen_again_in_fields(alloc, &s.fields),
        Data::Enum(e) => variant_seen_again(alloc, e.variants.items.as_slice()),
        Data::Union(u) => field_seen_again(alloc, u.fields.items.as_slice()),
    }
}

fn name_seen_again(alloc: Global, input: &DeriveInput<'_>) -> Made<Option<Span>>
    ensures { IfOk result (λ r. r ≡ spec.repeated (tree.declaration_view input.now)) }
{
    let all = input.generics.params.items.as_slice();
    let params = param_seen_again(alloc, all, &input.ident)?;
    let inside = seen_again_in_shape(alloc, &input.shape)?;
    Ok(params.or(inside))
}

/// Whether the names that a declaration declares may stand, in linear time: the names seen so far stand in sets in
/// `alloc`'s memory. `check_names` answers the same and takes no memory, and time that grows with the square of a list's
/// length. So this one is for declarations of any length.
///
/// The refusal is the one of `check_names`. `AllocError` is want of memory; it can come in place of any answer.
pub fn check_names_in(alloc: Global, input: &DeriveInput<'_>) -> Result<(), Error>
    ensures { MatchResult result (λ _. Named (tree.declaration_view input.now)) (IsNamesError (tree.declaration_view input.now)) }
{
    let any = in_declaration(Wanted::Either, input);
    if let Some(span) = place_of(Wanted::MacroType, any, input) {
        let kind = Kind::Unsupported;
        return Err(Error::Refused(Refusal { kind, span }));
    }
    if let Some(span) = name_seen_again(alloc, input)? {
        let kind = Kind::DuplicateName;
        return Err(Error::Refused(Refusal { kind, span }));
    }
    if let Some(span) = place_of(Wanted::Reserved, any, input) {
        let kind = Kind::ReservedName;
        return Err(Error::Refused(Refusal { kind, span }));
    }
    Ok(())
}
