//! Variants.
#![tactic(auto)]

ghost use Rattle.dm_ast.specs.Declarations as tree;
ghost use Rattle.dm_read.specs.DeclarationReaders as spec;
ghost use Rattle.dm_read_paths.specs.WholeReaders.{parts};
ghost use Rattle.dm_read_decl.specs.Rules as rules;
ghost use Rattle.dm_read_decl.specs.ShapeViews.{body_view};
ghost use Rattle.dm_input.specs.Inputs.{Reads};

use crate::field::variant_fields;
use crate::forms::marked;
use dm_ast::{Fields, Opaque, Variant};
use dm_input::Input;
use dm_input::join::joined;
use dm_input::list::Rule;
use dm_stream::{Ident, Read};

/// The fields and the discriminant of a variant.
type VariantBody<'a> = (Fields<'a>, Option<Opaque<'a>>);

/// The discriminant where `=` comes next.
fn discriminant<'a>(input: &mut Input<'_, 'a>) -> Read<Option<Opaque<'a>>>
    ensures { Reads (λ o. o) (spec.read_discriminant parts) input.old result input.new }
{
    if !input.sees_equals() {
        return Ok(None);
    }
    input.equals()?;
    Ok(Some(input.run()?))
}

/// The fields and the discriminant.
fn body<'a>(input: &mut Input<'_, 'a>) -> Read<VariantBody<'a>>
    ensures { Reads body_view rules.read_body input.old result input.new }
{
    let fields = variant_fields(input)?;
    joined(fields, discriminant(input))
}

/// A name, fields and a discriminant.
#[derive(Clone, Copy)]
struct NamedBody;

impl<'a> Rule<'a> for NamedBody {
    ghost use Rattle.std.specs.Prelude.{Option};
    ghost use Rattle.dm_stream.specs.declared.tokens.Ident.{Ident};
    ghost use Rattle.dm_ast.specs.declared.plain.Opaque.{Opaque};
    ghost use Rattle.dm_ast.specs.Declarations.{FieldsTree};
    ghost use Rattle.dm_read_decl.specs.Rules as rules;
    ghost use Rattle.dm_read_decl.specs.ShapeViews.{second_view, body_view};

    type Part = (Ident<'a>, VariantBody<'a>);

    ghost Tree = { Ident × (FieldsTree × Option Opaque) };

    ghost view = { second_view body_view };

    ghost usable = { λ _. Unit {0} };

    ghost reader = { λ _ w. rules.read_named_body w };

    fn read(&self, input: &mut Input<'_, 'a>) -> Read<(Ident<'a>, VariantBody<'a>)> {
        let name = input.name()?;
        joined(name, body(input))
    }
}

/// A variant.
fn variant<'a>(input: &mut Input<'_, 'a>) -> Read<Variant<'a>>
    ensures { Reads tree.variant_view (spec.read_variant parts) input.old result input.new }
{
    let begun = input.cursor();
    let (attrs, (vis, (ident, (fields, discriminant)))) = marked(&NamedBody, input)?;
    Ok(Variant {
        attrs,
        vis,
        ident,
        fields,
        discriminant,
        span: input.since(begun),
    })
}

/// Variants.
#[derive(Clone, Copy)]
pub struct VariantRule;

impl<'a> Rule<'a> for VariantRule {
    ghost use Rattle.dm_ast.specs.Declarations.{VariantTree, variant_view};
    ghost use Rattle.dm_read.specs.DeclarationReaders as spec;
    ghost use Rattle.dm_read_paths.specs.WholeReaders.{parts};

    type Part = Variant<'a>;

    ghost Tree = { VariantTree };

    ghost view = { variant_view };

    ghost usable = { λ _. Unit {0} };

    ghost reader = { λ _ w. spec.read_variant parts w };

    fn read(&self, input: &mut Input<'_, 'a>) -> Read<Variant<'a>> {
        variant(input)
    }
}
