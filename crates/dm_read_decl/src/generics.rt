//! Generics: parameters and `where`.
#![tactic(auto)]

ghost use Rattle.std.specs.Prelude.{◌≤◌};
ghost use Rattle.dm_ast.specs.Declarations as tree;
ghost use Rattle.dm_read.specs.DeclarationReaders as spec;
ghost use Rattle.dm_read_paths.specs.WholeReaders.{parts};
ghost use Rattle.dm_read_decl.specs.Rules as rules;
ghost use Rattle.dm_read_decl.specs.ShapeViews.{both_views, second_view, angled_view, clause_view};
ghost use Rattle.dm_read_paths.specs.Prelude.{deepest, ty_view, bound_view, Reads};

use crate::forms::commas;
use crate::param::{ParamRule, some_bounds, some_outlived};
use dm_ast::{Bound, GenericParam, Ty, WherePredicate};
use dm_input::Input;
use dm_input::join::{ended, joined};
use dm_input::list::Rule;
use dm_read::list::Stop;
use dm_read_types::entry::ty;
use dm_stream::{Lifetime, Punctuated, Read};

/// Whether `<` and `>` stand there, and the parameters.
pub type AngledParams<'a> = (bool, Punctuated<GenericParam<'a>>);

/// The predicates of a `where` clause, where one stands.
pub type Clause<'a> = Option<Punctuated<WherePredicate<'a>>>;

/// A type and its bounds.
type BoundedType<'a> = (Ty<'a>, Punctuated<Bound<'a>>);

/// Parameters with commas between, up to `>`.
fn params<'a>(input: &mut Input<'_, 'a>) -> Read<Punctuated<GenericParam<'a>>>
    ensures { Reads (tree.listed tree.param_view) rules.read_params input.old result input.new }
{
    commas(&ParamRule, Stop::Angle, input)
}

/// Parameters one level deeper.
#[tactic(auto, using(dm_input::proofs::Levels::level_steps))]
fn deep_params<'a>(input: &mut Input<'_, 'a>) -> Read<Punctuated<GenericParam<'a>>>
    requires { input.old.at.level ≤ deepest }
    ensures { Reads (tree.listed tree.param_view) rules.read_deep_params input.old result input.new }
{
    input.down();
    let found = params(input)?;
    input.up();
    Ok(found)
}

/// Parameters and `>`.
fn till_angle<'a>(input: &mut Input<'_, 'a>) -> Read<Punctuated<GenericParam<'a>>>
    requires { input.old.at.level ≤ deepest }
    ensures { Reads (tree.listed tree.param_view) rules.read_till_angle input.old result input.new }
{
    let found = deep_params(input)?;
    ended(found, input.punct('>'))
}

/// `<..>`.
fn angled<'a>(input: &mut Input<'_, 'a>) -> Read<Punctuated<GenericParam<'a>>>
    ensures { Reads (tree.listed tree.param_view) rules.read_angled input.old result input.new }
{
    input.punct('<')?;
    till_angle(input)
}

/// Whether `<` comes next, and the parameters.
pub fn generics<'a>(input: &mut Input<'_, 'a>) -> Read<AngledParams<'a>>
    ensures { Reads angled_view (spec.read_generics parts) input.old result input.new }
{
    if !input.sees('<') {
        return Ok((false, Punctuated::new(input.alloc())));
    }
    Ok((true, angled(input)?))
}

/// A lifetime, `:` and the lifetimes that it outlives.
fn outlives_parts<'a>(input: &mut Input<'_, 'a>) -> Read<(Lifetime<'a>, Punctuated<Lifetime<'a>>)>
    ensures { Reads (λ v. v) rules.read_outlives_parts input.old result input.new }
{
    let lifetime = input.lifetime()?;
    joined(lifetime, some_outlived(input))
}

/// A predicate on a lifetime.
fn lifetime_predicate<'a>(input: &mut Input<'_, 'a>) -> Read<WherePredicate<'a>>
    ensures { Reads tree.predicate_view (spec.read_lifetime_predicate parts) input.old result input.new }
{
    let (lifetime, outlived) = outlives_parts(input)?;
    Ok(WherePredicate::Lifetime(lifetime, outlived))
}

/// A type, `:` and bounds.
fn bounded<'a>(input: &mut Input<'_, 'a>) -> Read<BoundedType<'a>>
    ensures { Reads (both_views ty_view (tree.listed bound_view)) rules.read_bounded input.old result input.new }
{
    let found = ty(input)?;
    joined(found, some_bounds(input))
}

/// `for<..>` where it comes next, a type and bounds.
fn predicate_parts<'a>(
    input: &mut Input<'_, 'a>,
) -> Read<(Option<Punctuated<Lifetime<'a>>>, BoundedType<'a>)>
    ensures { Reads (second_view (both_views ty_view (tree.listed bound_view))) rules.read_predicate_parts input.old result input.new }
{
    let lifetimes = input.for_lifetimes()?;
    joined(lifetimes, bounded(input))
}

/// A predicate on a type.
fn type_predicate<'a>(input: &mut Input<'_, 'a>) -> Read<WherePredicate<'a>>
    ensures { Reads tree.predicate_view (spec.read_type_predicate parts) input.old result input.new }
{
    let (lifetimes, (found, bounds)) = predicate_parts(input)?;
    Ok(WherePredicate::Ty(lifetimes, found, bounds))
}

/// A predicate.
fn predicate<'a>(input: &mut Input<'_, 'a>) -> Read<WherePredicate<'a>>
    ensures { Reads tree.predicate_view (spec.read_predicate parts) input.old result input.new }
{
    if input.sees_lifetime() {
        return lifetime_predicate(input);
    }
    type_predicate(input)
}

/// Predicates.
#[derive(Clone, Copy)]
pub struct PredicateRule;

impl<'a> Rule<'a> for PredicateRule {
    ghost use Rattle.dm_ast.specs.Declarations.{PredicateTree, predicate_view};
    ghost use Rattle.dm_read.specs.DeclarationReaders as spec;
    ghost use Rattle.dm_read_paths.specs.WholeReaders.{parts};

    type Part = WherePredicate<'a>;

    ghost Tree = { PredicateTree };

    ghost view = { predicate_view };

    ghost usable = { λ _. Unit {0} };

    ghost reader = { λ _ w. spec.read_predicate parts w };

    fn read(&self, input: &mut Input<'_, 'a>) -> Read<WherePredicate<'a>> {
        predicate(input)
    }
}

/// Predicates with commas between, up to where they end.
fn predicates<'a>(input: &mut Input<'_, 'a>) -> Read<Punctuated<WherePredicate<'a>>>
    ensures { Reads (tree.listed tree.predicate_view) rules.read_predicates input.old result input.new }
{
    commas(&PredicateRule, Stop::Where, input)
}

/// `where` and its predicates.
fn some_where<'a>(input: &mut Input<'_, 'a>) -> Read<Punctuated<WherePredicate<'a>>>
    ensures { Reads (tree.listed tree.predicate_view) rules.read_some_where input.old result input.new }
{
    input.word("where")?;
    predicates(input)
}

/// The `where` clause where one comes next.
pub fn where_clause<'a>(input: &mut Input<'_, 'a>) -> Read<Clause<'a>>
    ensures { Reads clause_view (spec.read_where parts) input.old result input.new }
{
    if !input.sees_word("where") {
        return Ok(None);
    }
    Ok(Some(some_where(input)?))
}
