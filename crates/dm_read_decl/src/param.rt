//! Generic parameters.
#![tactic(auto)]

ghost use Rattle.std.specs.Prelude.{option_map};
ghost use Rattle.dm_ast.specs.Declarations as tree;
ghost use Rattle.dm_read.specs.DeclarationReaders as spec;
ghost use Rattle.dm_read_paths.specs.WholeReaders.{parts};
ghost use Rattle.dm_read_decl.specs.Rules as rules;
ghost use Rattle.dm_read_decl.specs.ShapeViews.{second_view, value_view, bounds_default_view};
ghost use Rattle.dm_read_paths.specs.Prelude.{ty_view, bound_view, Reads};

use dm_ast::{Attribute, Bound, ConstArg, ConstParam, GenericParam, LifetimeParam, Ty, TyParam};
use dm_input::Input;
use dm_input::join::joined;
use dm_input::list::Rule;
use dm_read_types::entry::{bounds, ty};
use dm_stream::{Ident, Lifetime, Punctuated, Read, Seq};

/// The type of a constant parameter, and its value.
type TypeAndValue<'a> = (Ty<'a>, Option<ConstArg<'a>>);

/// The bounds of a type parameter, and the type that it stands for by itself.
type BoundsAndDefault<'a> = (Option<Punctuated<Bound<'a>>>, Option<Ty<'a>>);

/// `:` and the bounds of a lifetime.
pub fn some_outlived<'a>(input: &mut Input<'_, 'a>) -> Read<Punctuated<Lifetime<'a>>>
    ensures { Reads (λ v. v) rules.read_some_outlived input.old result input.new }
{
    input.colon()?;
    input.lifetime_bounds()
}

/// The bounds of a lifetime where `:` comes next.
fn outlived<'a>(input: &mut Input<'_, 'a>) -> Read<Option<Punctuated<Lifetime<'a>>>>
    ensures { Reads (λ v. v) rules.read_outlived input.old result input.new }
{
    if !input.sees_colon() {
        return Ok(None);
    }
    Ok(Some(some_outlived(input)?))
}

/// A lifetime and its bounds.
fn lifetime_parts<'a>(
    input: &mut Input<'_, 'a>,
) -> Read<(Lifetime<'a>, Option<Punctuated<Lifetime<'a>>>)>
    ensures { Reads (λ v. v) rules.read_lifetime_parts input.old result input.new }
{
    let lifetime = input.lifetime()?;
    joined(lifetime, outlived(input))
}

/// A lifetime parameter behind its attributes.
fn lifetime_param<'a>(
    attrs: Seq<Attribute<'a>>,
    input: &mut Input<'_, 'a>,
) -> Read<GenericParam<'a>>
    ensures { Reads tree.param_view (spec.read_lifetime_param parts attrs.entry) input.old result input.new }
{
    let (attrs, (lifetime, bounds)) = joined(attrs, lifetime_parts(input))?;
    Ok(GenericParam::Lifetime(LifetimeParam {
        attrs,
        lifetime,
        bounds,
    }))
}

/// The value of a constant parameter where `=` comes next.
fn default_value<'a>(input: &mut Input<'_, 'a>) -> Read<Option<ConstArg<'a>>>
    ensures { Reads (λ v. v) rules.read_value input.old result input.new }
{
    if !input.sees_equals() {
        return Ok(None);
    }
    input.equals()?;
    Ok(Some(input.constant()?))
}

/// The type of a constant parameter, and its value.
fn type_value<'a>(input: &mut Input<'_, 'a>) -> Read<TypeAndValue<'a>>
    ensures { Reads value_view rules.read_type_value input.old result input.new }
{
    let found = ty(input)?;
    joined(found, default_value(input))
}

/// `:`, the type of a constant parameter, and its value.
fn typed_value<'a>(input: &mut Input<'_, 'a>) -> Read<TypeAndValue<'a>>
    ensures { Reads value_view rules.read_typed_value input.old result input.new }
{
    input.colon()?;
    type_value(input)
}

/// A name, its type, and its value.
fn named_value<'a>(input: &mut Input<'_, 'a>) -> Read<(Ident<'a>, TypeAndValue<'a>)>
    ensures { Reads (second_view value_view) rules.read_named_value input.old result input.new }
{
    let name = input.name()?;
    joined(name, typed_value(input))
}

/// `const`, a name, its type, and its value.
fn const_parts<'a>(input: &mut Input<'_, 'a>) -> Read<(Ident<'a>, TypeAndValue<'a>)>
    ensures { Reads (second_view value_view) rules.read_const_parts input.old result input.new }
{
    input.word("const")?;
    named_value(input)
}

/// A constant parameter behind its attributes.
fn const_param<'a>(attrs: Seq<Attribute<'a>>, input: &mut Input<'_, 'a>) -> Read<GenericParam<'a>>
    ensures { Reads tree.param_view (spec.read_const_param parts attrs.entry) input.old result input.new }
{
    let (attrs, (ident, (ty, default_value))) = joined(attrs, const_parts(input))?;
    Ok(GenericParam::Const(ConstParam {
        attrs,
        ident,
        ty,
        default_value,
    }))
}

/// `:` and bounds.
pub fn some_bounds<'a>(input: &mut Input<'_, 'a>) -> Read<Punctuated<Bound<'a>>>
    ensures { Reads (tree.listed bound_view) rules.read_some_bounds input.old result input.new }
{
    input.colon()?;
    bounds(input)
}

/// The bounds of a type parameter where `:` comes next.
fn maybe_bounds<'a>(input: &mut Input<'_, 'a>) -> Read<Option<Punctuated<Bound<'a>>>>
    ensures { Reads (option_map (tree.listed bound_view)) rules.read_bounds input.old result input.new }
{
    if !input.sees_colon() {
        return Ok(None);
    }
    Ok(Some(some_bounds(input)?))
}

/// The type that a type parameter stands for by itself, where `=` comes next.
fn default_type<'a>(input: &mut Input<'_, 'a>) -> Read<Option<Ty<'a>>>
    ensures { Reads (option_map ty_view) rules.read_default input.old result input.new }
{
    if !input.sees_equals() {
        return Ok(None);
    }
    input.equals()?;
    Ok(Some(ty(input)?))
}

/// The bounds of a type parameter, and the type that it stands for by itself.
fn bounds_default<'a>(input: &mut Input<'_, 'a>) -> Read<BoundsAndDefault<'a>>
    ensures { Reads bounds_default_view rules.read_bounds_default input.old result input.new }
{
    let bounds = maybe_bounds(input)?;
    joined(bounds, default_type(input))
}

/// A name, bounds, and the type that the parameter stands for by itself.
fn type_parts<'a>(input: &mut Input<'_, 'a>) -> Read<(Ident<'a>, BoundsAndDefault<'a>)>
    ensures { Reads (second_view bounds_default_view) rules.read_type_parts input.old result input.new }
{
    let name = input.name()?;
    joined(name, bounds_default(input))
}

/// A type parameter behind its attributes.
fn type_param<'a>(attrs: Seq<Attribute<'a>>, input: &mut Input<'_, 'a>) -> Read<GenericParam<'a>>
    ensures { Reads tree.param_view (spec.read_type_param parts attrs.entry) input.old result input.new }
{
    let (attrs, (ident, (bounds, default_ty))) = joined(attrs, type_parts(input))?;
    Ok(GenericParam::Ty(TyParam {
        attrs,
        ident,
        bounds,
        default_ty,
    }))
}

/// A parameter behind its attributes.
fn param_behind<'a>(attrs: Seq<Attribute<'a>>, input: &mut Input<'_, 'a>) -> Read<GenericParam<'a>>
    ensures { Reads tree.param_view (spec.read_param_behind parts attrs.entry) input.old result input.new }
{
    if input.sees_lifetime() {
        return lifetime_param(attrs, input);
    }
    if input.sees_word("const") {
        return const_param(attrs, input);
    }
    type_param(attrs, input)
}

/// Parameters.
#[derive(Clone, Copy)]
pub struct ParamRule;

impl<'a> Rule<'a> for ParamRule {
    ghost use Rattle.dm_ast.specs.Declarations.{ParamTree, param_view};
    ghost use Rattle.dm_read.specs.DeclarationReaders as spec;
    ghost use Rattle.dm_read_paths.specs.WholeReaders.{parts};

    type Part = GenericParam<'a>;

    ghost Tree = { ParamTree };

    ghost view = { param_view };

    ghost usable = { λ _. Unit {0} };

    ghost reader = { λ _ w. spec.read_param parts w };

    fn read(&self, input: &mut Input<'_, 'a>) -> Read<GenericParam<'a>> {
        let attrs = input.attributes()?;
        param_behind(attrs, input)
    }
}
