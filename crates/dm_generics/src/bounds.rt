//! Bounds that emitted code has beside those of the declaration.
#![tactic(auto, using(crate::proofs::Builders::bound_steps))]

ghost use Rattle.std.specs.Prelude.{◌≡◌, ◌∷◌, [], false, None, codes, IfOk};
ghost use Rattle.dm_ast.specs.Tree.{
  bound_view,
  trait_view,
  path_view,
  segment_view,
  argument_view,
  arguments_view,
  implements,
  trait_bound,
  path_tree,
  segment as segment_tree,
  segments_of,
  assoc_type,
  arguments_absent,
};
ghost use Rattle.std.specs.Prelude.{◌++◌, map};
ghost use Rattle.dm_ast.specs.Implementors as implementors;
ghost use Rattle.dm_generics.specs.Words as words;
ghost use Rattle.dm_generics.specs.Bounds as spec;

use crate::lists::{appended, one};
use crate::names::{owned_word, path_of, segments, word};
use crate::types::name_type;
use dm_ast::{Bound, GenericArgument, Path, PathArguments, PathSegment, TraitBound};
use dm_copy::both;
use dm_stream::{Ident, Made, Punctuated, Seq};
use std::alloc::{AllocError, Global};

fn trait_of(path: Path<'_>, maybe: bool) -> TraitBound<'_>
    ensures { trait_view result ≡ trait_bound false maybe None (path_view path.entry) }
{
    TraitBound {
        parens: false,
        maybe,
        lifetimes: None,
        path,
    }
}

/// A trait as a bound, with `?` before it where `maybe` says so.
pub fn bound_of(path: Path<'_>, maybe: bool) -> Bound<'_>
    ensures { bound_view result ≡ implements (trait_bound false maybe None (path_view path.entry)) }
{
    Bound::Trait(trait_of(path, maybe))
}

/// `derive_more::core::marker::NAME`, with `?` before it where `maybe` says so.
pub fn marker<'a>(alloc: Global, name: &'a str, maybe: bool) -> Result<Bound<'a>, AllocError>
    ensures { IfOk result (λ b. bound_view b ≡ spec.marker maybe name.now) }
{
    let path = path_of(alloc, &["derive_more", "core", "marker", name])?;
    Ok(bound_of(path, maybe))
}

/// `Output = T`.
fn output_argument<'a>(ident: &Ident<'a>, alloc: Global) -> Made<GenericArgument<'a>>
    ensures { IfOk result (λ a. argument_view a ≡ assoc_type (words.word (codes "Output")) arguments_absent (implementors.name_type ident.now)) }
{
    let name = ident.clone_in(alloc)?;
    let ty = name_type(alloc, name)?;
    Ok(GenericArgument::AssocTy(word("Output"), None, ty))
}

/// `<Output = T>`.
fn output<'a>(ident: &Ident<'a>, alloc: Global) -> Made<PathArguments<'a>>
    ensures { IfOk result (λ a. arguments_view a ≡ spec.output ident.now) }
{
    let argument = output_argument(ident, alloc)?;
    let items = one(alloc, argument)?;
    Ok(PathArguments::Angle(
        false,
        Punctuated {
            items,
            trailing: false,
        },
    ))
}

/// A segment with what stands behind its name.
pub fn segment<'a>(ident: Ident<'a>, arguments: PathArguments<'a>) -> PathSegment<'a>
    ensures { segment_view result ≡ segment_tree ident.entry (arguments_view arguments.entry) }
{
    PathSegment { ident, arguments }
}

/// `NAME<Output = T>`.
fn op_segment<'a>(ident: &Ident<'a>, name: &str, alloc: Global) -> Made<PathSegment<'a>>
    ensures { IfOk result (λ s. segment_view s ≡ segment_tree (words.word name.now) (spec.output ident.now)) }
{
    let (name, arguments) = both(owned_word(alloc, name), output(ident, alloc))?;
    Ok(segment(name, arguments))
}

fn segments_to<'a>(
    alloc: Global,
    names: &[&'a str],
    last: PathSegment<'a>,
) -> Made<Seq<PathSegment<'a>>>
    ensures { IfOk result (λ ss. map segment_view ss ≡ words.plain_segments (map (λ s. s.now) names.now) ++ segment_view last.entry ∷ []) }
{
    let (front, last) = both(segments(alloc, names), Ok(last))?;
    Ok(appended(front, last)?)
}

/// A path of these names and a last segment.
pub fn path_to<'a>(
    alloc: Global,
    names: &[&'a str],
    last: PathSegment<'a>,
) -> Result<Path<'a>, AllocError>
    ensures { IfOk result (λ p. path_view p ≡ path_tree false (segments_of (words.plain_segments (map (λ s. s.now) names.now) ++ segment_view last.entry ∷ []))) }
{
    Ok(Path {
        leading_colon: false,
        segments: segments_to(alloc, names, last)?,
    })
}

/// `derive_more::core::ops::NAME<Output = T>`, for the type parameter of this identifier.
pub fn op_output<'a>(ident: &Ident<'a>, name: &str, alloc: Global) -> Result<Bound<'a>, AllocError>
    ensures { IfOk result (λ b. bound_view b ≡ spec.op_output name.now ident.now) }
{
    let last = op_segment(ident, name, alloc)?;
    let path = path_to(alloc, &["derive_more", "core", "ops"], last)?;
    Ok(bound_of(path, false))
}
