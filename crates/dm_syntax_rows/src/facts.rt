//! Declarations: their tokens, and parts of their trees.

use crate::names::checked;
use crate::tokens::Tokens;
use dm_rows::{Tells, made, printed, told};
use dm_syntax::{
    Attribute, Bound, CloneIn, Data, DeriveInput, Field, Fields, GenericParam, PathArguments, Ty,
    TyNode, Variant, Vis, WherePredicate, parse_decl,
};
use dm_tokens::{Error, Span, TokenStream};
use std::alloc::{AllocError, Global};

/// What is told of a declaration.
#[derive(Clone, Copy)]
pub(crate) enum Fact {
    /// Its tokens, and those of a copy where they are others.
    ComesBack,
    /// What the check of its names answers.
    Names,
    /// The ranges of its attributes, its fields and their types, and its variants.
    Ranges,
    /// Whether its only predicate has lifetimes of its own, and whether its type has.
    Lifetimes,
    /// Of its only field's path: the number of segments, of those that stand before the others in a qualified type, and whether `::`
    /// stands in front.
    Segments,
    /// Of the arguments of that path's last segment: whether `::` stands before the `<`, or `->` behind the `)`, and whether a
    /// comma stands at the end.
    Arguments,
    /// The visibility of its only field.
    Visibility,
    /// The kinds of its parameters.
    Parameters,
    /// The tokens of its first parameter, of that one's first bound, and of its first predicate.
    Parts,
}

impl<'a> Tells<DeriveInput<'a>> for Fact {
    fn tell(value: &DeriveInput<'a>, alloc: Global, way: &Fact) -> Result<String, Error> {
        match way {
            Fact::ComesBack => comes_back(value, alloc),
            Fact::Names => checked(value, alloc),
            Fact::Ranges => ranges(value, alloc),
            Fact::Lifetimes => lifetimes(value, alloc),
            Fact::Segments => segments(value, alloc),
            Fact::Arguments => arguments(value, alloc),
            Fact::Visibility => visibility(value, alloc),
            Fact::Parameters => parameters(value, alloc),
            Fact::Parts => parts(value, alloc),
        }
    }
}

/// What is told of the declaration that a text is.
pub(crate) fn declared(
    stream: &TokenStream<'_>,
    alloc: Global,
    fact: Fact,
) -> Result<String, Error> {
    told(parse_decl(alloc, stream), alloc, &fact)
}

fn comes_back(input: &DeriveInput<'_>, alloc: Global) -> Result<String, Error> {
    let text = printed(input, alloc)?;
    let copy = made(input.clone_in(alloc), alloc, &Tokens)?;
    if text.as_str() == copy.as_str() {
        return Ok(text);
    }
    let text = text.as_str();
    let copy = copy.as_str();
    Ok(format!(in alloc; "{text}\ncopy {copy}")?)
}

/// There is no such part.
fn nothing(alloc: Global) -> Result<String, Error> {
    Ok(String::from_str(alloc, "no such part")?)
}

/// The fields of a struct.
fn fields<'x, 'a>(input: &'x DeriveInput<'a>) -> &'x [Field<'a>] {
    match &input.shape {
        Data::Struct(data) => match &data.fields {
            Fields::Named(all) => all.items.as_slice(),
            Fields::Unnamed(all) => all.items.as_slice(),
            Fields::Unit => &[],
        },
        Data::Enum(_) => &[],
        Data::Union(data) => data.fields.items.as_slice(),
    }
}

/// The variants of an enum.
fn variants<'x, 'a>(input: &'x DeriveInput<'a>) -> &'x [Variant<'a>] {
    match &input.shape {
        Data::Enum(data) => data.variants.items.as_slice(),
        Data::Struct(_) | Data::Union(_) => &[],
    }
}

fn only_field<'x, 'a>(input: &'x DeriveInput<'a>) -> Option<&'x Field<'a>> {
    match fields(input) {
        [only] => Some(only),
        _ => None,
    }
}

/// Adds a word and a range.
fn add_range(out: &mut String, word: &str, span: Span) -> Result<(), AllocError> {
    let start = span.start;
    let end = span.end;
    write!(out, "{word} {start}..{end}")
}

fn add_attributes(all: &[Attribute<'_>], out: &mut String) -> Result<(), AllocError> {
    for attribute in all {
        add_range(out, "attribute", attribute.span)?;
        out.push_str("\n")?;
    }
    Ok(())
}

fn add_fields(all: &[Field<'_>], out: &mut String) -> Result<(), AllocError> {
    for field in all {
        add_range(out, "field", field.span)?;
        add_range(out, ", type", field.ty.span)?;
        out.push_str("\n")?;
    }
    Ok(())
}

fn add_variants(all: &[Variant<'_>], out: &mut String) -> Result<(), AllocError> {
    for variant in all {
        add_range(out, "variant", variant.span)?;
        let is_valued = variant.discriminant.is_some();
        out.push_str(if is_valued {
            ", with a discriminant\n"
        } else {
            "\n"
        })?;
    }
    Ok(())
}

fn ranges(input: &DeriveInput<'_>, alloc: Global) -> Result<String, Error> {
    let mut out = String::new(alloc);
    add_attributes(input.attrs.as_slice(), &mut out)?;
    add_fields(fields(input), &mut out)?;
    add_variants(variants(input), &mut out)?;
    Ok(out)
}

/// Whether the predicate has lifetimes of its own, and whether its type has.
fn bound_by(predicate: &WherePredicate<'_>) -> Option<(bool, bool)> {
    match predicate {
        WherePredicate::Lifetime(_, _) => None,
        WherePredicate::Ty(lifetimes, ty, _) => match &ty.node {
            TyNode::BareFn(function) => Some((lifetimes.is_some(), function.lifetimes.is_some())),
            _ => Some((lifetimes.is_some(), false)),
        },
    }
}

fn only_bound_by(input: &DeriveInput<'_>) -> Option<(bool, bool)> {
    match input.generics.where_clause.as_ref()?.items.as_slice() {
        [only] => bound_by(only),
        _ => None,
    }
}

fn lifetimes(input: &DeriveInput<'_>, alloc: Global) -> Result<String, Error> {
    match only_bound_by(input) {
        Some((own, inner)) => {
            Ok(format!(in alloc; "own lifetimes {own}, lifetimes of the type {inner}")?)
        }
        None => nothing(alloc),
    }
}

fn counted(ty: &Ty<'_>) -> Option<(usize, usize, bool)> {
    match &ty.node {
        TyNode::Path(None, path) => Some((0, path.segments.len(), path.leading_colon)),
        TyNode::Path(Some(of), path) => {
            Some((of.position, path.segments.len(), path.leading_colon))
        }
        _ => None,
    }
}

fn segments(input: &DeriveInput<'_>, alloc: Global) -> Result<String, Error> {
    match only_field(input) {
        Some(field) => match counted(&field.ty) {
            Some((before, all, colon)) => {
                Ok(format!(in alloc;
                    "segments {all}, before the others {before}, :: in front {colon}"
                )?)
            }
            None => nothing(alloc),
        },
        None => nothing(alloc),
    }
}

fn marks(ty: &Ty<'_>) -> Option<(bool, bool)> {
    let TyNode::Path(_, path) = &ty.node else {
        return None;
    };
    match &path.segments.as_slice().last()?.arguments {
        PathArguments::Absent => None,
        PathArguments::Angle(double, all) => Some((*double, all.trailing)),
        PathArguments::Paren(all, output) => Some((output.is_some(), all.trailing)),
    }
}

fn arguments(input: &DeriveInput<'_>, alloc: Global) -> Result<String, Error> {
    match only_field(input) {
        Some(field) => match marks(&field.ty) {
            Some((mark, comma)) => {
                Ok(format!(in alloc; ":: or -> {mark}, comma at the end {comma}")?)
            }
            None => nothing(alloc),
        },
        None => nothing(alloc),
    }
}

/// Which visibility it is.
fn vis_name(vis: &Option<Vis<'_>>) -> &'static str {
    match vis {
        None => "none",
        Some(Vis::Public) => "pub",
        Some(Vis::Crate) => "crate",
        Some(Vis::SelfOnly) => "self",
        Some(Vis::Super) => "super",
        Some(Vis::In(_)) => "in",
    }
}

fn visibility(input: &DeriveInput<'_>, alloc: Global) -> Result<String, Error> {
    match only_field(input) {
        Some(field) => Ok(String::from_str(alloc, vis_name(&field.vis))?),
        None => nothing(alloc),
    }
}

/// Which kind of parameter it is.
fn kind_of(param: &GenericParam<'_>) -> &'static str {
    match param {
        GenericParam::Lifetime(_) => "lifetime\n",
        GenericParam::Ty(_) => "type\n",
        GenericParam::Const(_) => "constant\n",
    }
}

fn add_kinds(all: &[GenericParam<'_>], out: &mut String) -> Result<(), AllocError> {
    for param in all {
        out.push_str(kind_of(param))?;
    }
    Ok(())
}

fn parameters(input: &DeriveInput<'_>, alloc: Global) -> Result<String, Error> {
    let mut out = String::new(alloc);
    add_kinds(input.generics.params.items.as_slice(), &mut out)?;
    let angled = input.generics.angled;
    let trailing = input.generics.params.trailing;
    write!(&mut out, "angles {angled}, comma at the end {trailing}")?;
    Ok(out)
}

/// The first parameter.
fn param<'x, 'a>(input: &'x DeriveInput<'a>) -> Option<&'x GenericParam<'a>> {
    input.generics.params.items.as_slice().first()
}

/// Its first bound.
fn bound<'x, 'a>(input: &'x DeriveInput<'a>) -> Option<&'x Bound<'a>> {
    match param(input)? {
        GenericParam::Ty(param) => param.bounds.as_ref()?.items.as_slice().first(),
        GenericParam::Lifetime(_) | GenericParam::Const(_) => None,
    }
}

/// The first predicate.
fn predicate<'x, 'a>(input: &'x DeriveInput<'a>) -> Option<&'x WherePredicate<'a>> {
    input
        .generics
        .where_clause
        .as_ref()?
        .items
        .as_slice()
        .first()
}

fn parts(input: &DeriveInput<'_>, alloc: Global) -> Result<String, Error> {
    match (param(input), bound(input), predicate(input)) {
        (Some(param), Some(bound), Some(predicate)) => {
            let param = printed(param, alloc)?;
            let bound = printed(bound, alloc)?;
            let predicate = printed(predicate, alloc)?;
            let param = param.as_str();
            let bound = bound.as_str();
            let predicate = predicate.as_str();
            Ok(format!(in alloc; "{param}\n{bound}\n{predicate}")?)
        }
        _ => nothing(alloc),
    }
}
