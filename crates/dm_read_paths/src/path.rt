//! Paths.
#![tactic(auto)]

ghost use Rattle.std.specs.Prelude.{◌≡◌, ◌≤◌, IfOk, map, option_map};
ghost use Rattle.dm_read.specs.Stops.{list_view};
ghost use Rattle.dm_read_paths.specs.Bindings as bindings;
ghost use Rattle.dm_read_paths.specs.TypeReaders as types;
ghost use Rattle.dm_ast.specs.Tree.{maybe_type, no_type, some_type, types_of, arguments_of, segments_of, path_tree, segment, absent, angle, parens};
ghost use Rattle.dm_read_paths.specs.Prelude.{deepest, Reads, read_type, Nests, ty_view, path_view, segment_view, arguments_view, argument_view};

use crate::grammar::Grammar;
use crate::kind::Mode;
use dm_ast::{GenericArgument, Path, PathArguments, PathSegment, Ty, TyNode};
use dm_input::Input;
use dm_input::join::{beside, boxed, ended, joined};
use dm_input::list::{Rule, chained};
use dm_read::list::Link;
use dm_stream::{Delim, Ident, Made, Punctuated, Read, Seq};
use std::alloc::Global;

/// Whether arguments between `<` and `>` come next.
fn sees_angled(input: &Input<'_, '_>) -> bool
    ensures { result ≡ types.sees_angled input.now.trees }
{
    input.sees('<') || input.sees_turbofish()
}

/// No arguments.
#[tactic(auto, using(dm_ast::proofs::View::view_steps))]
pub fn no_arguments<'a>() -> PathArguments<'a>
    ensures { arguments_view result ≡ absent }
{
    PathArguments::Absent
}

/// Arguments between `<` and `>`.
#[tactic(auto, using(dm_ast::proofs::View::view_steps))]
fn angle_of<'a>(double: bool, found: Punctuated<GenericArgument<'a>>) -> PathArguments<'a>
    ensures { arguments_view result ≡ angle double (arguments_of (map argument_view found.entry.items)) found.entry.trailing }
{
    PathArguments::Angle(double, found)
}

/// Types in parentheses.
#[tactic(auto, using(crate::proofs::Built::built_steps))]
fn parens_alone<'a>(inputs: Punctuated<Ty<'a>>) -> PathArguments<'a>
    ensures { arguments_view result ≡ parens (types_of (map ty_view inputs.entry.items)) inputs.entry.trailing no_type }
{
    PathArguments::Paren(inputs, None)
}

/// Types in parentheses, and a type.
#[tactic(auto, using(crate::proofs::Built::built_steps))]
fn parens_with<'a>(
    alloc: Global,
    inputs: Punctuated<Ty<'a>>,
    output: Ty<'a>,
) -> Made<PathArguments<'a>>
    ensures { IfOk result (λ r. arguments_view r ≡ parens (types_of (map ty_view inputs.entry.items)) inputs.entry.trailing (some_type (ty_view output.entry))) }
{
    let (inner, inputs) = beside(boxed(alloc, output), inputs)?;
    Ok(PathArguments::Paren(inputs, Some(inner)))
}

/// Types in parentheses, and what follows `->`.
fn parens_of<'a>(
    alloc: Global,
    inputs: Punctuated<Ty<'a>>,
    output: Option<Ty<'a>>,
) -> Made<PathArguments<'a>>
    ensures { IfOk result (λ r. arguments_view r ≡ parens (types_of (map ty_view inputs.entry.items)) inputs.entry.trailing (maybe_type (option_map ty_view output.entry))) }
{
    match output {
        None => Ok(parens_alone(inputs)),
        Some(output) => parens_with(alloc, inputs, output),
    }
}

/// A segment.
#[tactic(auto, using(dm_ast::proofs::View::view_steps))]
pub fn segment_of<'a>(ident: Ident<'a>, arguments: PathArguments<'a>) -> PathSegment<'a>
    ensures { segment_view result ≡ segment ident.entry (arguments_view arguments.entry) }
{
    PathSegment { ident, arguments }
}

/// A path.
#[tactic(auto, using(dm_ast::proofs::View::view_steps))]
pub fn path_of<'a>(leading_colon: bool, segments: Seq<PathSegment<'a>>) -> Path<'a>
    ensures { path_view result ≡ path_tree leading_colon (segments_of (map segment_view segments.entry)) }
{
    Path {
        leading_colon,
        segments,
    }
}

/// The path that a type is, where it is a path alone.
#[tactic(auto, using(dm_ast::proofs::View::view_steps))]
pub fn path_alone<'a>(found: Ty<'a>) -> Option<Path<'a>>
    ensures { option_map path_view result ≡ bindings.path_alone (ty_view found.entry) }
{
    match found.into_node() {
        TyNode::Path(qself, path) => match qself {
            None => Some(path),
            Some(_) => None,
        },
        TyNode::Paren(_) => None,
        TyNode::Tuple(_) => None,
        TyNode::Slice(_) => None,
        TyNode::Array(_, _) => None,
        TyNode::Reference(_, _, _) => None,
        TyNode::Pointer(_, _) => None,
        TyNode::BareFn(_) => None,
        TyNode::TraitObject(_) => None,
        TyNode::ImplTrait(_) => None,
        TyNode::Infer => None,
        TyNode::Never => None,
        TyNode::Macro(_, _, _) => None,
    }
}

impl<'a, F: for<'t> Fn(&mut Input<'t, 'a>, usize, Mode) -> Read<Ty<'a>>> Grammar<F> {
    /// Types in parentheses, and what follows `->`.
    fn parens_parts(&self, input: &mut Input<'_, 'a>) -> Read<(Punctuated<Ty<'a>>, Option<Ty<'a>>)>
        requires { Nests self.now.depth (F.pre self.now.ty) (F.post self.now.ty) }
        ensures { Reads (λ v. (types.types_pair (list_view ty_view v.0), maybe_type (option_map ty_view v.1))) (types.read_parens_parts (read_type self.now.depth)) input.old result input.new }
    {
        let inputs = self.enclosed_types(input)?;
        joined(inputs, self.deep_output(input))
    }

    /// Types in parentheses, and what follows `->`, as arguments.
    fn parens(&self, input: &mut Input<'_, 'a>) -> Read<PathArguments<'a>>
        requires { Nests self.now.depth (F.pre self.now.ty) (F.post self.now.ty) }
        ensures { Reads arguments_view (types.read_parens (read_type self.now.depth)) input.old result input.new }
    {
        let (inputs, output) = self.parens_parts(input)?;
        Ok(parens_of(input.alloc(), inputs, output)?)
    }

    /// Arguments whose tokens stand one level deeper.
    #[tactic(auto, using(dm_input::proofs::Levels::level_steps))]
    fn deep_arguments(&self, input: &mut Input<'_, 'a>) -> Read<Punctuated<GenericArgument<'a>>>
        requires level { input.old.at.level ≤ deepest }
        requires nests { Nests self.now.depth (F.pre self.now.ty) (F.post self.now.ty) }
        ensures { Reads (λ v. types.arguments_pair (list_view argument_view v)) (types.read_deep_arguments (read_type self.now.depth)) input.old result input.new }
    {
        input.down();
        let found = self.arguments(input)?;
        input.up();
        Ok(found)
    }

    /// Arguments and `>`.
    fn till_angle(&self, input: &mut Input<'_, 'a>) -> Read<Punctuated<GenericArgument<'a>>>
        requires level { input.old.at.level ≤ deepest }
        requires nests { Nests self.now.depth (F.pre self.now.ty) (F.post self.now.ty) }
        ensures { Reads (λ v. types.arguments_pair (list_view argument_view v)) (types.read_till_angle (read_type self.now.depth)) input.old result input.new }
    {
        let found = self.deep_arguments(input)?;
        ended(found, input.punct('>'))
    }

    /// Arguments between `<` and `>`.
    fn between_angles(&self, input: &mut Input<'_, 'a>) -> Read<Punctuated<GenericArgument<'a>>>
        requires { Nests self.now.depth (F.pre self.now.ty) (F.post self.now.ty) }
        ensures { Reads (λ v. types.arguments_pair (list_view argument_view v)) (types.read_between_angles (read_type self.now.depth)) input.old result input.new }
    {
        input.punct('<')?;
        self.till_angle(input)
    }

    /// Arguments between `<` and `>`, perhaps behind `::`.
    pub fn angled(&self, input: &mut Input<'_, 'a>) -> Read<PathArguments<'a>>
        requires { Nests self.now.depth (F.pre self.now.ty) (F.post self.now.ty) }
        ensures { Reads arguments_view (types.read_angled (read_type self.now.depth)) input.old result input.new }
    {
        let double = input.leading()?;
        Ok(angle_of(double, self.between_angles(input)?))
    }

    /// The arguments of a segment.
    fn segment_arguments(&self, input: &mut Input<'_, 'a>) -> Read<PathArguments<'a>>
        requires { Nests self.now.depth (F.pre self.now.ty) (F.post self.now.ty) }
        ensures { Reads arguments_view (types.read_segment_arguments (read_type self.now.depth)) input.old result input.new }
    {
        if input.sees_group(Delim::Paren) {
            return self.parens(input);
        }
        if input.sees_arguments() {
            return self.angled(input);
        }
        Ok(no_arguments())
    }

    /// The arguments of a segment where they stand between `<` and `>`.
    fn bare_arguments(&self, input: &mut Input<'_, 'a>) -> Read<PathArguments<'a>>
        requires { Nests self.now.depth (F.pre self.now.ty) (F.post self.now.ty) }
        ensures { Reads arguments_view (types.read_bare_arguments (read_type self.now.depth)) input.old result input.new }
    {
        if sees_angled(input) {
            return self.angled(input);
        }
        Ok(no_arguments())
    }

    /// The arguments of a segment, which has none in parentheses if it is bare.
    fn own_arguments(&self, bare: bool, input: &mut Input<'_, 'a>) -> Read<PathArguments<'a>>
        requires { Nests self.now.depth (F.pre self.now.ty) (F.post self.now.ty) }
        ensures { Reads arguments_view (types.read_own_arguments (read_type self.now.depth) bare) input.old result input.new }
    {
        if bare {
            return self.bare_arguments(input);
        }
        self.segment_arguments(input)
    }

    /// A segment's name and its arguments.
    fn segment_parts(
        &self,
        bare: bool,
        input: &mut Input<'_, 'a>,
    ) -> Read<(Ident<'a>, PathArguments<'a>)>
        requires { Nests self.now.depth (F.pre self.now.ty) (F.post self.now.ty) }
        ensures { Reads (λ v. (v.0, arguments_view v.1)) (types.read_segment_parts (read_type self.now.depth) bare) input.old result input.new }
    {
        let ident = input.path_word()?;
        joined(ident, self.own_arguments(bare, input))
    }

    /// A segment.
    fn segment(&self, bare: bool, input: &mut Input<'_, 'a>) -> Read<PathSegment<'a>>
        requires { Nests self.now.depth (F.pre self.now.ty) (F.post self.now.ty) }
        ensures { Reads segment_view (types.read_segment (read_type self.now.depth) bare) input.old result input.new }
    {
        let (ident, arguments) = self.segment_parts(bare, input)?;
        Ok(segment_of(ident, arguments))
    }

    /// Segments with `::` between.
    pub fn segments(&self, bare: bool, input: &mut Input<'_, 'a>) -> Read<Seq<PathSegment<'a>>>
        requires { Nests self.now.depth (F.pre self.now.ty) (F.post self.now.ty) }
        ensures { Reads (map segment_view) (types.read_segment_list (read_type self.now.depth) bare) input.old result input.new }
    {
        chained(
            &SegmentRule {
                grammar: self,
                bare,
            },
            Link::Colons,
            input,
        )
    }

    /// The segments of a path.
    fn segment_trees(&self, bare: bool, input: &mut Input<'_, 'a>) -> Read<Seq<PathSegment<'a>>>
        requires { Nests self.now.depth (F.pre self.now.ty) (F.post self.now.ty) }
        ensures { Reads (λ l. segments_of (map segment_view l)) (types.read_segment_trees (read_type self.now.depth) bare) input.old result input.new }
    {
        self.segments(bare, input)
    }

    /// A path. The segments of a bare one have no list in parentheses of their own.
    pub fn path(&self, bare: bool, input: &mut Input<'_, 'a>) -> Read<Path<'a>>
        requires { Nests self.now.depth (F.pre self.now.ty) (F.post self.now.ty) }
        ensures { Reads path_view (types.read_path_by (read_type self.now.depth) bare) input.old result input.new }
    {
        let leading_colon = input.leading()?;
        Ok(path_of(leading_colon, self.segment_trees(bare, input)?))
    }
}

/// A segment in a chain.
#[derive(Drop)]
struct SegmentRule<'g, F> {
    grammar: &'g Grammar<F>,
    bare: bool,
}

impl<'g, 'a, F: for<'t> Fn(&mut Input<'t, 'a>, usize, Mode) -> Read<Ty<'a>>> Rule<'a>
    for SegmentRule<'g, F> {
    ghost use Rattle.dm_ast.specs.Tree.{SegmentTree, segment_view};
    ghost use Rattle.dm_read_paths.specs.Nests.{Nests};
    ghost use Rattle.dm_read_paths.specs.TypeReaders as types;
    ghost use Rattle.dm_read_paths.specs.TypeReaders.{read_type};

    type Part = PathSegment<'a>;

    ghost Tree = { SegmentTree };

    ghost view = { segment_view };

    ghost usable = { λ r. Nests r.grammar.now.depth (F.pre r.grammar.now.ty) (F.post r.grammar.now.ty) };

    ghost reader = { λ r w. types.read_segment (read_type r.grammar.now.depth) r.bare w };

    fn read(&self, input: &mut Input<'_, 'a>) -> Read<PathSegment<'a>> {
        self.grammar.segment(self.bare, input)
    }
}
