//! The first name that a declaration declares again. Each name is compared with those before it, so no memory is needed.
#![tactic(auto)]

ghost use Rattle.std.specs.Prelude.{◌≡◌, [], map};
ghost use Rattle.std.specs.List.{list_any};
ghost use Rattle.std.specs.Str.{bytes_eq};
ghost use Rattle.dm_ast.specs.Declarations as tree;
ghost use Rattle.dm_repeats.specs.Repeats as spec;

use dm_ast::{Data, DeriveInput, Field, Fields, GenericParam, Variant};
use dm_stream::{Ident, Lifetime, Span};

fn is_name(ident: &Ident<'_>, name: &str) -> bool
    ensures { result ≡ bytes_eq ident.now.name name.now }
{
    ident.name.as_str() == name
}

/// The place, if there is something.
pub fn place_if(is_there: bool, span: Span) -> Option<Span>
    ensures { result ≡ spec.place_if is_there span }
{
    if is_there { Some(span) } else { None }
}

fn is_called(name: &str, ident: &Option<Ident<'_>>) -> bool
    ensures { result ≡ spec.is_called name.now ident.now }
{
    match ident {
        None => false,
        Some(ident) => is_name(ident, name),
    }
}

fn has_field(all: &[Field<'_>], name: &str) -> bool
    ensures { result ≡ list_any (spec.is_field_called name.now) (map tree.field_view all.now) }
{
    for field in all {
        if is_called(name, &field.ident) {
            return true;
        }
    }
    false
}

fn field_again<'a>(earlier: &[Field<'a>], field: &Field<'a>) -> Option<Span>
    ensures { result ≡ spec.field_again (map tree.field_view earlier.now) (tree.field_view field.now) }
{
    match &field.ident {
        None => None,
        Some(ident) => {
            let is_there = has_field(earlier, ident.name.as_str());
            place_if(is_there, ident.span)
        }
    }
}

fn repeated_field(all: &[Field<'_>]) -> Option<Span>
    ensures { result ≡ spec.repeats spec.field_again [] (map tree.field_view all.now) }
{
    for (i, field) in all.iter().enumerate() {
        if let Some(span) = field_again(&all[..i], field) {
            return Some(span);
        }
    }
    None
}

fn repeated_in_fields(fields: &Fields<'_>) -> Option<Span>
    ensures { result ≡ spec.repeated_in_fields (tree.fields_view fields.now) }
{
    match fields {
        Fields::Named(all) => repeated_field(all.items.as_slice()),
        Fields::Unnamed(all) => repeated_field(all.items.as_slice()),
        Fields::Unit => None,
    }
}

fn has_variant(all: &[Variant<'_>], name: &str) -> bool
    ensures { result ≡ list_any (spec.is_variant_called name.now) (map tree.variant_view all.now) }
{
    for variant in all {
        if is_name(&variant.ident, name) {
            return true;
        }
    }
    false
}

fn variant_again<'a>(earlier: &[Variant<'a>], variant: &Variant<'a>) -> Option<Span>
    ensures { result ≡ spec.variant_again (map tree.variant_view earlier.now) (tree.variant_view variant.now) }
{
    let is_there = has_variant(earlier, variant.ident.name.as_str());
    let inside = repeated_in_fields(&variant.fields);
    place_if(is_there, variant.ident.span).or(inside)
}

fn repeated_variant(all: &[Variant<'_>]) -> Option<Span>
    ensures { result ≡ spec.repeats spec.variant_again [] (map tree.variant_view all.now) }
{
    for (i, variant) in all.iter().enumerate() {
        if let Some(span) = variant_again(&all[..i], variant) {
            return Some(span);
        }
    }
    None
}

fn is_lifetime_called(param: &GenericParam<'_>, name: &str) -> bool
    ensures { result ≡ spec.is_lifetime_called name.now (tree.param_view param.now) }
{
    match param {
        GenericParam::Lifetime(p) => p.lifetime.name.as_str() == name,
        GenericParam::Ty(_) => false,
        GenericParam::Const(_) => false,
    }
}

fn is_type_called(param: &GenericParam<'_>, name: &str) -> bool
    ensures { result ≡ spec.is_type_called name.now (tree.param_view param.now) }
{
    match param {
        GenericParam::Lifetime(_) => false,
        GenericParam::Ty(p) => is_name(&p.ident, name),
        GenericParam::Const(p) => is_name(&p.ident, name),
    }
}

fn has_lifetime(all: &[GenericParam<'_>], name: &str) -> bool
    ensures { result ≡ list_any (spec.is_lifetime_called name.now) (map tree.param_view all.now) }
{
    for param in all {
        if is_lifetime_called(param, name) {
            return true;
        }
    }
    false
}

fn has_type(all: &[GenericParam<'_>], name: &str) -> bool
    ensures { result ≡ list_any (spec.is_type_called name.now) (map tree.param_view all.now) }
{
    for param in all {
        if is_type_called(param, name) {
            return true;
        }
    }
    false
}

fn lifetime_again(earlier: &[GenericParam<'_>], lifetime: &Lifetime<'_>) -> Option<Span>
    ensures { result ≡ spec.lifetime_again (map tree.param_view earlier.now) lifetime.now }
{
    let is_there = has_lifetime(earlier, lifetime.name.as_str());
    place_if(is_there, lifetime.span)
}

fn type_again(
    earlier: &[GenericParam<'_>],
    type_name: &Ident<'_>,
    ident: &Ident<'_>,
) -> Option<Span>
    ensures { result ≡ spec.type_again type_name.now (map tree.param_view earlier.now) ident.now }
{
    let name = ident.name.as_str();
    place_if(
        is_name(type_name, name) || has_type(earlier, name),
        ident.span,
    )
}

fn param_again<'a>(
    earlier: &[GenericParam<'a>],
    param: &GenericParam<'a>,
    type_name: &Ident<'_>,
) -> Option<Span>
    ensures { result ≡ spec.param_again type_name.now (map tree.param_view earlier.now) (tree.param_view param.now) }
{
    match param {
        GenericParam::Lifetime(p) => lifetime_again(earlier, &p.lifetime),
        GenericParam::Ty(p) => type_again(earlier, type_name, &p.ident),
        GenericParam::Const(p) => type_again(earlier, type_name, &p.ident),
    }
}

fn repeated_param(all: &[GenericParam<'_>], type_name: &Ident<'_>) -> Option<Span>
    ensures { result ≡ spec.repeats (spec.param_again type_name.now) [] (map tree.param_view all.now) }
{
    for (i, param) in all.iter().enumerate() {
        if let Some(span) = param_again(&all[..i], param, type_name) {
            return Some(span);
        }
    }
    None
}

fn repeated_in_shape(shape: &Data<'_>) -> Option<Span>
    ensures { result ≡ spec.repeated_in_shape (tree.shape_view shape.now) }
{
    match shape {
        Data::Struct(s) => repeated_in_fields(&s.fields),
        Data::Enum(e) => repeated_variant(e.variants.items.as_slice()),
        Data::Union(u) => repeated_field(u.fields.items.as_slice()),
    }
}

/// The place of the first name in the text that is declared again.
pub fn repeated_name(input: &DeriveInput<'_>) -> Option<Span>
    ensures { result ≡ spec.repeated (tree.declaration_view input.now) }
{
    let params = repeated_param(input.generics.params.items.as_slice(), &input.ident);
    params.or(repeated_in_shape(&input.shape))
}
