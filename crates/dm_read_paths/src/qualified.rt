//! Types like `<T as A::B>::C`.
#![tactic(auto)]

ghost use Rattle.std.specs.Prelude.{◌≡◌, ◌≤◌, IfOk, map};
ghost use Rattle.dm_read_paths.specs.TypeReaders as types;
ghost use Rattle.dm_read_paths.specs.Bindings.{as_view};
ghost use Rattle.dm_ast.specs.Tree.{segments_of, path, path_tree, some_self};
ghost use Rattle.dm_read_paths.specs.Prelude.{deepest, Reads, read_type, Nests, ty_view, node_view, segment_view};

use crate::grammar::Grammar;
use crate::kind::Mode;
use crate::path::path_of;
use dm_ast::{PathSegment, QSelf, Ty, TyNode};
use dm_input::Input;
use dm_input::join::{beside, boxed, joined};
use dm_stream::{Error, Made, Read, Seq};
use std::alloc::Global;

/// A type, and a path that belongs to it.
#[tactic(auto, using(crate::proofs::Built::built_steps))]
fn qualified_node<'a>(
    alloc: Global,
    found: Ty<'a>,
    position: usize,
    leading: bool,
    segments: Seq<PathSegment<'a>>,
) -> Made<TyNode<'a>>
    ensures { IfOk result (λ n. node_view n ≡ path (some_self (ty_view found.entry) position) (path_tree leading (segments_of (map segment_view segments.entry)))) }
{
    let qself = QSelf {
        ty: found,
        position,
    };
    let (inner, segments) = beside(boxed(alloc, qself), segments)?;
    let path = path_of(leading, segments);
    Ok(TyNode::Path(Some(inner), path))
}

/// A type, the path behind `as`, and the one behind `>`.
#[tactic(auto, using(crate::proofs::QualifiedSteps::qualified_steps))]
fn qualified_of<'a>(
    alloc: Global,
    found: Ty<'a>,
    behind_as: Option<(bool, Seq<PathSegment<'a>>)>,
    segments: Seq<PathSegment<'a>>,
) -> Made<TyNode<'a>>
    ensures { IfOk result (λ n. node_view n ≡ types.qualified_by (ty_view found.entry) (as_view behind_as.entry) (map segment_view segments.entry)) }
{
    match behind_as {
        None => qualified_node(alloc, found, 0, true, segments),
        Some((leading, front)) => {
            let position = front.len();
            let mut all = front;
            all.append(segments)?;
            qualified_node(alloc, found, position, leading, all)
        }
    }
}

impl<'a, F: for<'t> Fn(&mut Input<'t, 'a>, usize, Mode) -> Read<Ty<'a>>> Grammar<F> {
    /// A path behind `as`.
    fn as_path(&self, input: &mut Input<'_, 'a>) -> Read<(bool, Seq<PathSegment<'a>>)>
        requires { Nests self.now.depth (F.pre self.now.ty) (F.post self.now.ty) }
        ensures { Reads (λ v. (v.0, map segment_view v.1)) (types.read_as_path (read_type self.now.depth)) input.old result input.new }
    {
        let leading_colon = input.leading()?;
        joined(leading_colon, self.segments(false, input))
    }

    /// `as` and a path.
    fn some_as(&self, input: &mut Input<'_, 'a>) -> Read<(bool, Seq<PathSegment<'a>>)>
        requires { Nests self.now.depth (F.pre self.now.ty) (F.post self.now.ty) }
        ensures { Reads (λ v. (v.0, map segment_view v.1)) (types.read_some_as (read_type self.now.depth)) input.old result input.new }
    {
        input.word("as")?;
        self.as_path(input)
    }

    /// `as` and a path, whose tokens stand one level deeper.
    #[tactic(auto, using(dm_input::proofs::Levels::level_steps))]
    fn deep_as(&self, input: &mut Input<'_, 'a>) -> Read<(bool, Seq<PathSegment<'a>>)>
        requires level { input.old.at.level ≤ deepest }
        requires nests { Nests self.now.depth (F.pre self.now.ty) (F.post self.now.ty) }
        ensures { Reads (λ v. (v.0, map segment_view v.1)) (types.read_deep_as (read_type self.now.depth)) input.old result input.new }
    {
        input.down();
        let found = self.some_as(input)?;
        input.up();
        Ok(found)
    }

    /// `as` and a path where they come next.
    fn maybe_as(&self, input: &mut Input<'_, 'a>) -> Read<Option<(bool, Seq<PathSegment<'a>>)>>
        requires level { input.old.at.level ≤ deepest }
        requires nests { Nests self.now.depth (F.pre self.now.ty) (F.post self.now.ty) }
        ensures { Reads as_view (types.read_as (read_type self.now.depth)) input.old result input.new }
    {
        if !input.sees_word("as") {
            return Ok(None);
        }
        Ok(Some(self.deep_as(input)?))
    }

    /// `::` and segments.
    fn further(&self, input: &mut Input<'_, 'a>) -> Read<Seq<PathSegment<'a>>>
        requires { Nests self.now.depth (F.pre self.now.ty) (F.post self.now.ty) }
        ensures { Reads (map segment_view) (types.read_further (read_type self.now.depth)) input.old result input.new }
    {
        input.colons()?;
        self.segments(false, input)
    }

    /// `>`, `::` and segments.
    fn behind_angle(&self, input: &mut Input<'_, 'a>) -> Read<Seq<PathSegment<'a>>>
        requires { Nests self.now.depth (F.pre self.now.ty) (F.post self.now.ty) }
        ensures { Reads (map segment_view) (types.read_behind_angle (read_type self.now.depth)) input.old result input.new }
    {
        input.punct('>')?;
        self.further(input)
    }

    /// What follows the type.
    fn behind_self(
        &self,
        input: &mut Input<'_, 'a>,
    ) -> Read<(Option<(bool, Seq<PathSegment<'a>>)>, Seq<PathSegment<'a>>)>
        requires level { input.old.at.level ≤ deepest }
        requires nests { Nests self.now.depth (F.pre self.now.ty) (F.post self.now.ty) }
        ensures { Reads (λ v. (as_view v.0, map segment_view v.1)) (types.read_behind_self (read_type self.now.depth)) input.old result input.new }
    {
        let behind_as = self.maybe_as(input)?;
        joined(behind_as, self.behind_angle(input))
    }

    /// What follows `<`.
    fn self_and_path(
        &self,
        input: &mut Input<'_, 'a>,
    ) -> Result<
        (
            Ty<'a>,
            (Option<(bool, Seq<PathSegment<'a>>)>, Seq<PathSegment<'a>>),
        ),
        Error,
    >
        requires level { input.old.at.level ≤ deepest }
        requires nests { Nests self.now.depth (F.pre self.now.ty) (F.post self.now.ty) }
        ensures { Reads (λ v. (ty_view v.0, (as_view v.1.0, map segment_view v.1.1))) (types.read_self_and_path (read_type self.now.depth)) input.old result input.new }
    {
        let found = self.deep_ty(Mode::Whole, input)?;
        joined(found, self.behind_self(input))
    }

    /// A type like `<T as A::B>::C`.
    pub fn qualified(&self, input: &mut Input<'_, 'a>) -> Read<TyNode<'a>>
        requires { Nests self.now.depth (F.pre self.now.ty) (F.post self.now.ty) }
        ensures { Reads node_view (types.read_qualified (read_type self.now.depth)) input.old result input.new }
    {
        input.punct('<')?;
        let (found, (behind_as, segments)) = self.self_and_path(input)?;
        Ok(qualified_of(input.alloc(), found, behind_as, segments)?)
    }
}
