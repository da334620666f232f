//! Identifiers and paths that emitted code is made of.
#![tactic(auto, using(crate::proofs::Builders::builder_steps))]

ghost use Rattle.std.specs.Prelude.{◌≡◌, [], ◌∷◌, map, IfOk};
ghost use Rattle.dm_ast.specs.Tree.{path_view, segment_view, segment, absent};
ghost use Rattle.dm_ast.specs.Implementors as implementors;
ghost use Rattle.dm_generics.specs.Words as spec;

use crate::lists::one;
use dm_ast::{Path, PathArguments, PathSegment};
use dm_stream::{Ident, Made, Seq, Span, Text};
use std::alloc::{AllocError, Global};

/// An identifier that stands nowhere in the declaration's text.
pub fn emitted(name: Text<'_>) -> Ident<'_>
    ensures { result ≡ spec.word name.entry }
{
    Ident {
        name,
        raw: false,
        span: Span::nowhere(),
    }
}

pub fn word(name: &str) -> Ident<'_>
    ensures { result ≡ spec.word name.now }
{
    emitted(Text::borrowed(name))
}

/// A name that outlives the text it was made of.
pub fn owned_word<'a>(alloc: Global, name: &str) -> Result<Ident<'a>, AllocError>
    ensures { IfOk result (λ i. i ≡ spec.word name.now) }
{
    let name = Text::borrowed(name).into_owned(alloc)?;
    Ok(emitted(name))
}

fn segment(ident: Ident<'_>) -> PathSegment<'_>
    ensures { segment_view result ≡ segment ident.entry absent }
{
    PathSegment {
        ident,
        arguments: PathArguments::Absent,
    }
}

/// A path of one identifier.
pub fn path_of_one(alloc: Global, ident: Ident<'_>) -> Result<Path<'_>, AllocError>
    ensures { IfOk result (λ p. path_view p ≡ implementors.plain_path (ident.entry ∷ [])) }
{
    Ok(Path {
        leading_colon: false,
        segments: one(alloc, segment(ident))?,
    })
}

/// The segments of a path of these names.
pub(crate) fn segments<'a>(alloc: Global, names: &[&'a str]) -> Made<Seq<PathSegment<'a>>>
    ensures { IfOk result (λ ss. map segment_view ss ≡ spec.plain_segments (map (λ s. s.now) names.now)) }
{
    let mut out = Seq::with_capacity(alloc, names.len())?;
    for name in names {
        let next = segment(word(name));
        out.add(next)?;
    }
    Ok(out)
}

/// A path of these names.
pub fn path_of<'a>(alloc: Global, names: &[&'a str]) -> Result<Path<'a>, AllocError>
    ensures { IfOk result (λ p. path_view p ≡ implementors.plain_path (spec.words (map (λ s. s.now) names.now))) }
{
    Ok(Path {
        leading_colon: false,
        segments: segments(alloc, names)?,
    })
}
