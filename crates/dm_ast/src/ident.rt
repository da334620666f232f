//! Paths that are one identifier, as `Path::get_ident` of syn has them.
#![tactic(auto, using(crate::proofs::View::view_steps))]

ghost use Rattle.std.specs.Prelude.{◌≡◌, map};
ghost use Rattle.std.specs.Option.{option_copied};
ghost use Rattle.dm_ast.specs.Idents.{segment_ident, segments_ident, path_ident};
ghost use Rattle.dm_ast.specs.Tree.{path_view, segment_view, segments_of};

use crate::ty::{Path, PathArguments, PathSegment};
use dm_stream::Ident;

impl<'a> PathSegment<'a> {
    /// The name of a segment without arguments.
    pub fn get_ident(&self) -> Option<&Ident<'a>>
        ensures { option_copied result ≡ segment_ident (segment_view self.now) }
    {
        match &self.arguments {
            PathArguments::Absent => Some(&self.ident),
            PathArguments::Angle(_, _) => None,
            PathArguments::Paren(_, _) => None,
        }
    }
}

/// The name that is all segments.
#[tactic(auto, using(crate::proofs::Idents::alone_steps))]
fn segments_alone<'p, 'a>(all: &'p [PathSegment<'a>]) -> Option<&'p Ident<'a>>
    ensures { option_copied result ≡ segments_ident (segments_of (map segment_view all.now)) }
{
    if all.len() != 1 {
        return None;
    }
    all[0].get_ident()
}

impl<'a> Path<'a> {
    /// The name that is the whole path, without `::` before it and without arguments.
    pub fn get_ident(&self) -> Option<&Ident<'a>>
        ensures { option_copied result ≡ path_ident (path_view self.now) }
    {
        if self.leading_colon {
            return None;
        }
        segments_alone(self.segments.as_slice())
    }
}
