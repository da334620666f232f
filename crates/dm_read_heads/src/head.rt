//! Heads: what stands between `impl` and the brace.
#![tactic(auto, using(crate::proofs::HeadSteps::head_steps))]

ghost use Rattle.std.specs.Prelude.{◌≡◌, true, IfOk, map};
ghost use Rattle.dm_ast.specs.Declarations.{param_view, predicate_view};
ghost use Rattle.dm_read_paths.specs.Bindings.{path_alone};
ghost use Rattle.dm_read_decl.specs.ShapeViews.{angled_view, clause_view};
ghost use Rattle.dm_reread.specs.HeadLeaves as plain;
ghost use Rattle.dm_reread.specs.ExactLeaves.{exact_head};
ghost use Rattle.dm_read_places.specs.Prelude.{ty_view, path_view, assoc_view, item_view, method_view, Reads};
ghost use Rattle.dm_read_heads.specs.Heads as spec;
ghost use Rattle.dm_read_heads.specs.Heads.{head_view};
ghost use Rattle.dm_read_heads.specs.Named.{named_view, behind_view};

use crate::assoc::AssocTypes;
use dm_ast::{GenericParam, Path, Ty, WherePredicate};
use dm_gather::discard;
use dm_input::Input;
use dm_input::join::joined;
use dm_nodes::item::{ItemNode, MethodNodes};
use dm_output::{Item, ItemAttr};
use dm_read::token::{behind, sees_word};
use dm_read_decl::generics::{generics, where_clause};
use dm_read_exact::exact::exact;
use dm_read_leaves::ty::front_type;
use dm_read_paths::path::path_alone;
use dm_read_places::place::Place;
use dm_stream::{Made, Punctuated, Read, Seq};
use std::alloc::Global;

/// What stands between `impl` and the brace: parameters, perhaps a trait, the type, and predicates. Its drop is a function, so that what
/// holds a head needs to know nothing of how trees are dropped.
pub struct Head<'a> {
    pub params: Seq<GenericParam<'a>>,
    pub trait_path: Option<Path<'a>>,
    pub ty: Ty<'a>,
    pub predicates: Seq<WherePredicate<'a>>,
}

impl Drop for Head<'_> {
    fn drop(self) {
        let Self {
            params,
            trait_path,
            ty,
            predicates,
        } = self;
        discard(params);
        discard(trait_path);
        discard(ty);
        discard(predicates);
    }
}

impl<'a> Head<'a> {
    /// The implementation of this head with these members.
    pub fn into_item(
        self,
        alloc: Global,
        attrs: Seq<ItemAttr>,
        assocs: AssocTypes<'a>,
        methods: MethodNodes<'a>,
    ) -> Made<ItemNode<'a>>
        ensures { IfOk result (λ i. item_view i ≡ spec.item_of attrs (head_view self.entry) (map assoc_view assocs.entry) (map method_view methods.entry)) }
    {
        let Self {
            params,
            trait_path,
            ty,
            predicates,
        } = self;
        let tree = Item {
            attrs,
            params,
            trait_path,
            ty,
            predicates,
            assocs: assocs.into_trees(),
            methods: methods.into_trees(),
        };
        Ok(ItemNode::new(alloc, tree)?)
    }
}

/// A trait's path where one stands before `for`, and the type.
#[derive(Drop)]
struct Named<'a> {
    trait_path: Option<Path<'a>>,
    ty: Ty<'a>,
}

// ---- parameters and predicates

/// Whether `<` stands in front, and the parameters, however they are spaced.
fn front_params<'a>(place: &mut Place<'_, 'a>) -> Read<(bool, Punctuated<GenericParam<'a>>)>
    ensures { Reads angled_view plain.read_generics place.old result place.new }
{
    let mut input = Input::new(place.alloc(), 0, place.cursor());
    match generics(&mut input) {
        Ok(found) => {
            place.go(input.cursor());
            Ok(found)
        }
        Err(error) => Err(error),
    }
}

/// The parameters alone.
fn params<'a>(place: &mut Place<'_, 'a>) -> Read<Seq<GenericParam<'a>>>
    ensures { Reads (map param_view) spec.params_at place.old result place.new }
{
    let (_, found) = front_params(place)?;
    Ok(found.items)
}

/// The predicates of a clause, none without it.
fn predicates_of<'a>(
    place: &Place<'_, 'a>,
    clause: Option<Punctuated<WherePredicate<'a>>>,
) -> Seq<WherePredicate<'a>>
    ensures { map predicate_view result ≡ plain.predicates_in (clause_view clause.entry) }
{
    match clause {
        Some(found) => found.items,
        None => Seq::new(place.alloc()),
    }
}

/// The clause in front, however it is spaced.
fn front_clause<'a>(place: &mut Place<'_, 'a>) -> Read<Option<Punctuated<WherePredicate<'a>>>>
    ensures { Reads clause_view plain.read_where place.old result place.new }
{
    let mut input = Input::new(place.alloc(), 0, place.cursor());
    match where_clause(&mut input) {
        Ok(found) => {
            place.go(input.cursor());
            Ok(found)
        }
        Err(error) => Err(error),
    }
}

/// Its predicates.
fn predicates<'a>(place: &mut Place<'_, 'a>) -> Read<Seq<WherePredicate<'a>>>
    ensures { Reads (map predicate_view) spec.predicates_at place.old result place.new }
{
    let found = front_clause(place)?;
    Ok(predicates_of(place, found))
}

// ---- the type, and the trait

/// A type behind `for`, and the path before it.
fn type_behind<'a>(path: Path<'a>, place: &mut Place<'_, 'a>) -> Read<Named<'a>>
    ensures { Reads named_view (spec.behind_path (path_view path.entry)) place.old result place.new }
{
    place.go(behind(place.cursor()));
    let (path, ty) = joined(path, front_type(place))?;
    Ok(Named {
        trait_path: Some(path),
        ty,
    })
}

/// The same, where the type before `for` is a path.
fn implementing<'a>(found: Ty<'a>, place: &mut Place<'_, 'a>) -> Read<Named<'a>>
    ensures { Reads named_view (spec.type_behind (path_alone (ty_view found.entry))) place.old result place.new }
{
    match path_alone(found) {
        Some(path) => type_behind(path, place),
        None => Err(place.refused()),
    }
}

/// A type is the trait where `for` stands behind it.
fn trait_first<'a>(found: Ty<'a>, place: &mut Place<'_, 'a>) -> Read<Named<'a>>
    ensures { Reads named_view (plain.trait_first (ty_view found.entry)) place.old result place.new }
{
    if sees_word("for", place.cursor()) {
        return implementing(found, place);
    }
    Ok(Named {
        trait_path: None,
        ty: found,
    })
}

fn named_type<'a>(place: &mut Place<'_, 'a>) -> Read<Named<'a>>
    ensures { Reads named_view plain.read_named place.old result place.new }
{
    let found = front_type(place)?;
    trait_first(found, place)
}

// ---- the whole

type Behind<'a> = (Named<'a>, Seq<WherePredicate<'a>>);

/// What stands behind the parameters.
fn behind_params<'a>(place: &mut Place<'_, 'a>) -> Read<Behind<'a>>
    ensures { Reads behind_view spec.behind_params place.old result place.new }
{
    let found = named_type(place)?;
    joined(found, predicates(place))
}

/// The parts as one.
fn head_of<'a>(params: Seq<GenericParam<'a>>, behind: Behind<'a>) -> Head<'a>
    ensures { head_view result ≡ spec.made_head (map param_view params.entry) (behind_view behind.entry) }
{
    let (Named { trait_path, ty }, predicates) = behind;
    Head {
        params,
        trait_path,
        ty,
        predicates,
    }
}

/// A head, however it is spaced.
fn front_head<'a>(place: &mut Place<'_, 'a>) -> Read<Head<'a>>
    ensures { Reads head_view plain.read_head place.old result place.new }
{
    let found = params(place)?;
    let (found, behind) = joined(found, behind_params(place))?;
    Ok(head_of(found, behind))
}

/// Whether a parameter has neither attributes nor a default.
fn is_plain(param: &GenericParam<'_>) -> bool
    ensures { result ≡ plain.is_plain (param_view param.now) }
{
    match param {
        GenericParam::Lifetime(found) => found.attrs.is_empty(),
        GenericParam::Ty(found) => found.attrs.is_empty() && found.default_ty.is_none(),
        GenericParam::Const(found) => found.attrs.is_empty() && found.default_value.is_none(),
    }
}

fn is_lifetime(param: &GenericParam<'_>) -> bool
    ensures { result ≡ plain.is_lifetime (param_view param.now) }
{
    matches!(param, GenericParam::Lifetime(_))
}

/// Whether a parameter is as implementations have it, where lifetimes may still come or not.
fn fits(param: &GenericParam<'_>, lifetimes: bool) -> bool
    ensures { result ≡ spec.fits lifetimes (param_view param.now) }
{
    is_plain(param) && (lifetimes || !is_lifetime(param))
}

/// Whether parameters are as implementations have them: without attributes and defaults, lifetimes first.
fn are_plain(params: &[GenericParam<'_>]) -> bool
    ensures { result ≡ plain.are_plain true (map param_view params.now) }
{
    let mut lifetimes = true;
    for param in params {
        if !fits(param, lifetimes) {
            return false;
        }
        lifetimes = is_lifetime(param);
    }
    true
}

/// A head with such parameters, however it is spaced.
fn plain_head<'a>(place: &mut Place<'_, 'a>) -> Read<Head<'a>>
    ensures { Reads head_view plain.plain_head place.old result place.new }
{
    let found = front_head(place)?;
    if !are_plain(found.params.as_slice()) {
        return Err(place.refused());
    }
    Ok(found)
}

/// A head, spaced as heads are printed. Refused where none stands there.
pub fn printed_head<'a>(place: &mut Place<'_, 'a>) -> Read<Head<'a>>
    ensures { Reads head_view exact_head place.old result place.new }
{
    let begun = place.cursor();
    let found = plain_head(place)?;
    exact(found, begun, place)
}
