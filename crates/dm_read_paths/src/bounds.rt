//! Bounds.
#![tactic(auto)]

ghost use Rattle.std.specs.Prelude.{◌≡◌, IfOk, true, false, map, [], ◌∷◌};
ghost use Rattle.dm_read.specs.Stops.{list_view};
ghost use Rattle.dm_read_paths.specs.TypeReaders as types;
ghost use Rattle.dm_ast.specs.Tree.{trait_view, trait_bound, bounds_of, path_tree, no_segments, outlives, implements};
ghost use Rattle.dm_read_paths.specs.Prelude.{Reads, read_type, Nests, ty_view, path_view, bound_view};

use crate::grammar::Grammar;
use crate::kind::Mode;
use crate::path::path_alone;
use dm_ast::{Bound, Path, TraitBound, Ty};
use dm_input::Input;
use dm_input::join::{ended, joined};
use dm_input::list::{Rule, chained, listed};
use dm_read::list::{Link, Stop};
use dm_stream::{Delim, Lifetime, Made, Punctuated, Read, Seq};
use std::alloc::Global;

/// Lifetimes of a `for`, and a path.
type BoundPath<'a> = (Option<Punctuated<Lifetime<'a>>>, Path<'a>);

/// A path without segments.
#[tactic(auto, using(dm_ast::proofs::View::view_steps))]
fn no_path<'a>(alloc: Global) -> Path<'a>
    ensures { path_view result ≡ path_tree false no_segments }
{
    Path {
        leading_colon: false,
        segments: Seq::new(alloc),
    }
}

/// The path that a type is.
#[tactic(auto, using(crate::proofs::Bindings::alone_steps))]
fn path_of<'a>(alloc: Global, found: Ty<'a>) -> Path<'a>
    ensures { path_view result ≡ types.as_path (ty_view found.entry) }
{
    match path_alone(found) {
        Some(path) => path,
        None => no_path(alloc),
    }
}

/// A trait as a bound.
#[tactic(auto, using(dm_ast::proofs::View::view_steps))]
fn trait_of<'a>(
    parens: bool,
    maybe: bool,
    lifetimes: Option<Punctuated<Lifetime<'a>>>,
    path: Path<'a>,
) -> TraitBound<'a>
    ensures { trait_view result ≡ trait_bound parens maybe lifetimes.entry (path_view path.entry) }
{
    TraitBound {
        parens,
        maybe,
        lifetimes,
        path,
    }
}

/// A bound that is a lifetime.
#[tactic(auto, using(dm_ast::proofs::View::view_steps))]
fn outlives_bound<'a>(name: Lifetime<'a>) -> Bound<'a>
    ensures { bound_view result ≡ outlives name.entry }
{
    Bound::Lifetime(name)
}

/// A bound that is a trait.
#[tactic(auto, using(dm_ast::proofs::View::view_steps))]
fn trait_as_bound<'a>(found: TraitBound<'a>) -> Bound<'a>
    ensures { bound_view result ≡ implements (trait_view found.entry) }
{
    Bound::Trait(found)
}

/// One bound as a list.
fn alone<'a>(alloc: Global, found: Bound<'a>) -> Made<Seq<Bound<'a>>>
    ensures { IfOk result (λ l. l ≡ found.entry ∷ []) }
{
    let mut all = Seq::new(alloc);
    all.add(found)?;
    Ok(all)
}

/// `?` where it comes next.
fn question(input: &mut Input<'_, '_>) -> Read<bool>
    ensures { Reads (λ b. b) types.read_question input.old result input.new }
{
    if !input.sees('?') {
        return Ok(false);
    }
    input.punct('?')?;
    Ok(true)
}

impl<'a, F: for<'t> Fn(&mut Input<'t, 'a>, usize, Mode) -> Read<Ty<'a>>> Grammar<F> {
    /// A path of the next level.
    fn inner_path(&self, input: &mut Input<'_, 'a>) -> Read<Path<'a>>
        requires { Nests self.now.depth (F.pre self.now.ty) (F.post self.now.ty) }
        ensures { Reads path_view (types.inner_path (read_type self.now.depth)) input.old result input.new }
    {
        let found = self.ty(Mode::PathOnly, input)?;
        Ok(path_of(input.alloc(), found))
    }

    /// Lifetimes of a `for`, and a path.
    fn bound_path(&self, input: &mut Input<'_, 'a>) -> Read<BoundPath<'a>>
        requires { Nests self.now.depth (F.pre self.now.ty) (F.post self.now.ty) }
        ensures { Reads (λ v. (v.0, path_view v.1)) (types.read_bound_path (read_type self.now.depth) (types.inner_path (read_type self.now.depth))) input.old result input.new }
    {
        let lifetimes = input.for_lifetimes()?;
        joined(lifetimes, self.inner_path(input))
    }

    /// A trait as a bound, without parentheses.
    fn plain_trait(&self, input: &mut Input<'_, 'a>) -> Read<(bool, BoundPath<'a>)>
        requires { Nests self.now.depth (F.pre self.now.ty) (F.post self.now.ty) }
        ensures { Reads (λ v. (v.0, (v.1.0, path_view v.1.1))) (types.read_plain_trait (read_type self.now.depth) (types.inner_path (read_type self.now.depth))) input.old result input.new }
    {
        let maybe = question(input)?;
        joined(maybe, self.bound_path(input))
    }

    /// A trait in parentheses.
    fn enclosed_trait(&self, input: &mut Input<'_, 'a>) -> Read<(bool, BoundPath<'a>)>
        requires { Nests self.now.depth (F.pre self.now.ty) (F.post self.now.ty) }
        ensures { Reads (λ v. (v.0, (v.1.0, path_view v.1.1))) (types.read_enclosed_trait (read_type self.now.depth) (types.inner_path (read_type self.now.depth))) input.old result input.new }
    {
        let mut inside = input.open(Delim::Paren)?;
        let found = self.plain_trait(&mut inside)?;
        ended(found, inside.close())
    }

    /// A trait as a bound.
    fn trait_bound(&self, input: &mut Input<'_, 'a>) -> Read<TraitBound<'a>>
        requires { Nests self.now.depth (F.pre self.now.ty) (F.post self.now.ty) }
        ensures { Reads trait_view (types.read_trait (read_type self.now.depth) (types.inner_path (read_type self.now.depth))) input.old result input.new }
    {
        if input.sees_group(Delim::Paren) {
            let (maybe, (lifetimes, path)) = self.enclosed_trait(input)?;
            return Ok(trait_of(true, maybe, lifetimes, path));
        }
        let (maybe, (lifetimes, path)) = self.plain_trait(input)?;
        Ok(trait_of(false, maybe, lifetimes, path))
    }

    /// A bound.
    fn bound(&self, input: &mut Input<'_, 'a>) -> Read<Bound<'a>>
        requires { Nests self.now.depth (F.pre self.now.ty) (F.post self.now.ty) }
        ensures { Reads bound_view (types.read_bound (read_type self.now.depth) (types.inner_path (read_type self.now.depth))) input.old result input.new }
    {
        if input.sees_lifetime() {
            return Ok(outlives_bound(input.lifetime()?));
        }
        Ok(trait_as_bound(self.trait_bound(input)?))
    }

    /// Bounds with `+` between, as a list.
    pub fn bound_list(&self, input: &mut Input<'_, 'a>) -> Read<Punctuated<Bound<'a>>>
        requires { Nests self.now.depth (F.pre self.now.ty) (F.post self.now.ty) }
        ensures { Reads (list_view bound_view) (types.read_bound_list (read_type self.now.depth) (types.inner_path (read_type self.now.depth))) input.old result input.new }
    {
        listed(&BoundRule { grammar: self }, '+', Stop::Bounds, input)
    }

    /// Bounds with `+` between.
    pub fn bounds(&self, input: &mut Input<'_, 'a>) -> Read<Punctuated<Bound<'a>>>
        requires { Nests self.now.depth (F.pre self.now.ty) (F.post self.now.ty) }
        ensures { Reads (λ v. types.bounds_pair (list_view bound_view v)) (types.read_bounds (read_type self.now.depth) (types.inner_path (read_type self.now.depth))) input.old result input.new }
    {
        self.bound_list(input)
    }

    /// One bound as a list.
    fn one_bound(&self, input: &mut Input<'_, 'a>) -> Read<Seq<Bound<'a>>>
        requires { Nests self.now.depth (F.pre self.now.ty) (F.post self.now.ty) }
        ensures { Reads (λ l. bounds_of (map bound_view l)) (types.read_one_bound (read_type self.now.depth) (types.inner_path (read_type self.now.depth))) input.old result input.new }
    {
        let found = self.bound(input)?;
        Ok(alone(input.alloc(), found)?)
    }

    /// One bound and each that follows `+`.
    fn all_bounds(&self, input: &mut Input<'_, 'a>) -> Read<Seq<Bound<'a>>>
        requires { Nests self.now.depth (F.pre self.now.ty) (F.post self.now.ty) }
        ensures { Reads (λ l. bounds_of (map bound_view l)) (types.read_all_bounds (read_type self.now.depth) (types.inner_path (read_type self.now.depth))) input.old result input.new }
    {
        chained(&BoundRule { grammar: self }, Link::Plus, input)
    }

    /// The bounds of a `dyn` or an `impl`.
    pub fn some_bounds(&self, single: bool, input: &mut Input<'_, 'a>) -> Read<Seq<Bound<'a>>>
        requires { Nests self.now.depth (F.pre self.now.ty) (F.post self.now.ty) }
        ensures { Reads (λ l. bounds_of (map bound_view l)) (types.read_some_bounds (read_type self.now.depth) (types.inner_path (read_type self.now.depth)) single) input.old result input.new }
    {
        if single {
            return self.one_bound(input);
        }
        self.all_bounds(input)
    }
}

/// A bound in a list.
#[derive(Drop)]
struct BoundRule<'g, F> {
    grammar: &'g Grammar<F>,
}

impl<'g, 'a, F: for<'t> Fn(&mut Input<'t, 'a>, usize, Mode) -> Read<Ty<'a>>> Rule<'a>
    for BoundRule<'g, F> {
    ghost use Rattle.dm_ast.specs.Tree.{BoundTree, bound_view};
    ghost use Rattle.dm_read_paths.specs.Nests.{Nests};
    ghost use Rattle.dm_read_paths.specs.TypeReaders as types;
    ghost use Rattle.dm_read_paths.specs.TypeReaders.{read_type};

    type Part = Bound<'a>;

    ghost Tree = { BoundTree };

    ghost view = { bound_view };

    ghost usable = { λ r. Nests r.grammar.now.depth (F.pre r.grammar.now.ty) (F.post r.grammar.now.ty) };

    ghost reader = { λ r w. types.read_bound (read_type r.grammar.now.depth) (types.inner_path (read_type r.grammar.now.depth)) w };

    fn read(&self, input: &mut Input<'_, 'a>) -> Read<Bound<'a>> {
        self.grammar.bound(input)
    }
}
