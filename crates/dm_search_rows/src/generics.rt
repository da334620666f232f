//! Generics: what an implementation takes over, and what is added.

use crate::texts::{laid_out, of_declaration, word};
use dm_ast::{Bound, DeriveInput, GenericParam, Generics, Ty, TyParam, WherePredicate};
use dm_generics::{
    Split, add_extra_generic_param, add_extra_generic_type_param, add_extra_ty_param_bound,
    add_extra_type_param_bound_op_output, add_extra_where_clauses, implementor_type, numbered_vars,
    split_for_impl,
};
use dm_lexer::lex;
use dm_meta::parse_predicates;
use dm_quote::ToTokens;
use dm_rows::{Tells, made, printed};
use dm_stream::{
    Error, Ident, Made, Punct, Punctuated, Read, Seq, Spacing, Span, Text, Token, TokenStream,
};
use std::alloc::{AllocError, Global};

/// What is added to the generics of a declaration.
#[derive(Clone, Copy)]
pub(crate) enum Addition {
    /// The bound of an operator of this name, whose output is the parameter.
    OpOutput,
    /// The bound of this predicate.
    BoundOf,
    /// A type parameter of this name, behind all others.
    Param,
    /// A type parameter of this name, behind the other type parameters.
    TypeParam,
    /// These predicates.
    Predicates,
}

/// The generics of a declaration, with the addition of this text.
#[derive(Clone, Copy)]
struct Adding<'t> {
    addition: Addition,
    text: &'t str,
}

/// Each parameter and each predicate, with a comma behind it.
#[derive(Clone, Copy)]
struct Parts;

/// Which parameters the implementation for a declaration takes over, and the type that it is for.
#[derive(Clone, Copy)]
struct TakenOver;

/// Adds a comma.
fn end(out: &mut TokenStream<'_>) -> Made<()> {
    let comma = Token::Punct(Punct {
        ch: ',',
        spacing: Spacing::Alone,
        span: Span { start: 0, end: 0 },
    });
    match out.push(comma) {
        Ok(()) => Ok(()),
        Err(_) => Err(AllocError),
    }
}

fn tell_params<'a>(params: &[GenericParam<'a>], out: &mut TokenStream<'a>) -> Made<()> {
    for param in params {
        param.to_tokens(out)?;
        end(out)?;
    }
    Ok(())
}

fn tell_predicates<'a>(predicates: &[WherePredicate<'a>], out: &mut TokenStream<'a>) -> Made<()> {
    for predicate in predicates {
        predicate.to_tokens(out)?;
        end(out)?;
    }
    Ok(())
}

fn tell_generics<'a>(generics: &Generics<'a>, out: &mut TokenStream<'a>) -> Made<()> {
    tell_params(generics.params.items.as_slice(), out)?;
    match &generics.where_clause {
        None => Ok(()),
        Some(all) => tell_predicates(all.items.as_slice(), out),
    }
}

impl<'a> Tells<Generics<'a>> for Parts {
    fn tell(value: &Generics<'a>, alloc: Global, _way: &Parts) -> Result<String, Error> {
        let mut out = TokenStream::new(alloc);
        let written = tell_generics(value, &mut out);
        laid_out(&out, alloc, written)
    }
}

impl<'a> Tells<Ty<'a>> for Parts {
    fn tell(value: &Ty<'a>, alloc: Global, _way: &Parts) -> Result<String, Error> {
        printed(value, alloc)
    }
}

impl<'a> Tells<Split<'a>> for Parts {
    fn tell(value: &Split<'a>, alloc: Global, _way: &Parts) -> Result<String, Error> {
        let mut out = TokenStream::new(alloc);
        let written = tell_params(value.impl_params.items.as_slice(), &mut out);
        laid_out(&out, alloc, written)
    }
}

impl<'a> Tells<DeriveInput<'a>> for TakenOver {
    fn tell(value: &DeriveInput<'a>, alloc: Global, _way: &TakenOver) -> Result<String, Error> {
        let params = made(split_for_impl(alloc, &value.generics), alloc, &Parts)?;
        let ty = made(implementor_type(alloc, value), alloc, &Parts)?;
        let params = params.as_str();
        let ty = ty.as_str();
        Ok(format!(in alloc; "{params}\n{ty}")?)
    }
}

/// Which parameters the implementation for a declaration takes over, and the type that it is for.
pub(crate) fn taken_over(alloc: Global, declaration: &str) -> Read<String> {
    of_declaration(alloc, declaration, &TakenOver)
}

/// A type parameter of this name.
fn param(alloc: Global, name: &str) -> GenericParam<'_> {
    GenericParam::Ty(TyParam {
        attrs: Seq::new(alloc),
        ident: Ident {
            name: Text::borrowed(name),
            raw: false,
            span: Span { start: 0, end: 0 },
        },
        bounds: None,
        default_ty: None,
    })
}

fn only_bound<'x, 'a>(predicates: &'x Punctuated<WherePredicate<'a>>) -> Option<&'x Bound<'a>> {
    match predicates.items.as_slice() {
        [predicate] => match predicate {
            WherePredicate::Ty(_, _, bounds) => match bounds.items.as_slice() {
                [bound] => Some(bound),
                _ => None,
            },
            WherePredicate::Lifetime(_, _) => None,
        },
        _ => None,
    }
}

fn predicates(alloc: Global, text: &str) -> Read<Punctuated<WherePredicate<'_>>> {
    let stream = lex(alloc, text)?;
    parse_predicates(alloc, stream.cursor())
}

fn with_bound<'a>(generics: &Generics<'a>, alloc: Global, text: &'a str) -> Read<String> {
    match predicates(alloc, text) {
        Ok(all) => match only_bound(&all) {
            Some(bound) => made(
                add_extra_ty_param_bound(alloc, generics, bound),
                alloc,
                &Parts,
            ),
            None => word(alloc, "no bound"),
        },
        Err(error) => Err(error),
    }
}

fn with_predicates<'a>(generics: &Generics<'a>, alloc: Global, text: &'a str) -> Read<String> {
    match predicates(alloc, text) {
        Ok(extra) => made(
            add_extra_where_clauses(alloc, generics, extra),
            alloc,
            &Parts,
        ),
        Err(error) => Err(error),
    }
}

fn with_addition<'a>(
    generics: &Generics<'a>,
    alloc: Global,
    addition: Addition,
    text: &'a str,
) -> Read<String> {
    match addition {
        Addition::OpOutput => {
            let added = add_extra_type_param_bound_op_output(alloc, generics, text);
            made(added, alloc, &Parts)
        }
        Addition::BoundOf => with_bound(generics, alloc, text),
        Addition::Param => {
            let added = add_extra_generic_param(alloc, generics, param(alloc, text));
            made(added, alloc, &Parts)
        }
        Addition::TypeParam => {
            let added = add_extra_generic_type_param(alloc, generics, param(alloc, text));
            made(added, alloc, &Parts)
        }
        Addition::Predicates => with_predicates(generics, alloc, text),
    }
}

impl<'a> Tells<DeriveInput<'a>> for Adding<'a> {
    fn tell(input: &DeriveInput<'a>, alloc: Global, way: &Adding<'a>) -> Result<String, Error> {
        with_addition(&input.generics, alloc, way.addition, way.text)
    }
}

/// The generics of a declaration, with the addition of this text.
pub(crate) fn added<'a>(
    alloc: Global,
    declaration: &'a str,
    addition: Addition,
    text: &'a str,
) -> Read<String> {
    of_declaration(alloc, declaration, &Adding { addition, text })
}

fn tell_names<'a>(names: &[Ident<'a>], out: &mut TokenStream<'a>) -> Made<()> {
    for name in names {
        name.to_tokens(out)?;
        end(out)?;
    }
    Ok(())
}

impl<'a> Tells<Seq<Ident<'a>>> for Parts {
    fn tell(value: &Seq<Ident<'a>>, alloc: Global, _way: &Parts) -> Result<String, Error> {
        let mut out = TokenStream::new(alloc);
        let written = tell_names(value.as_slice(), &mut out);
        laid_out(&out, alloc, written)
    }
}

/// So many names that begin so.
pub(crate) fn numbered(alloc: Global, count: usize, prefix: &str) -> Read<String> {
    made(numbered_vars(alloc, count, prefix), alloc, &Parts)
}
