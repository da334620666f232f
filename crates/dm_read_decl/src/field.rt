//! Fields.
#![tactic(auto)]

ghost use Rattle.dm_ast.specs.Declarations as tree;
ghost use Rattle.dm_read.specs.DeclarationReaders as spec;
ghost use Rattle.dm_read_paths.specs.WholeReaders.{parts};
ghost use Rattle.dm_read_decl.specs.Rules as rules;
ghost use Rattle.dm_read_paths.specs.Prelude.{ty_view, Reads};

use crate::forms::{enclosed, marked};
use dm_ast::{Field, Fields, Ty};
use dm_input::Input;
use dm_input::join::{ended, joined};
use dm_input::list::Rule;
use dm_read_types::entry::ty;
use dm_stream::{Delim, Ident, Punctuated, Read};

/// A name, and the `:` behind it.
fn field_name<'a>(input: &mut Input<'_, 'a>) -> Read<Ident<'a>>
    ensures { Reads (λ i. i) rules.read_field_name input.old result input.new }
{
    let found = input.name()?;
    ended(found, input.colon())
}

/// A name, `:` and a type.
#[derive(Clone, Copy)]
struct NamedType;

impl<'a> Rule<'a> for NamedType {
    ghost use Rattle.dm_stream.specs.declared.tokens.Ident.{Ident};
    ghost use Rattle.dm_ast.specs.Tree.{TypeTree, ty_view};
    ghost use Rattle.dm_read_decl.specs.Rules as rules;

    type Part = (Ident<'a>, Ty<'a>);

    ghost Tree = { Ident × TypeTree };

    ghost view = { λ v. (v.0, ty_view v.1) };

    ghost usable = { λ _. Unit {0} };

    ghost reader = { λ _ w. rules.read_named_type w };

    fn read(&self, input: &mut Input<'_, 'a>) -> Read<(Ident<'a>, Ty<'a>)> {
        let name = field_name(input)?;
        joined(name, ty(input))
    }
}

/// A type alone.
#[derive(Clone, Copy)]
struct OnlyType;

impl<'a> Rule<'a> for OnlyType {
    ghost use Rattle.dm_ast.specs.Tree.{TypeTree, ty_view};
    ghost use Rattle.dm_read_paths.specs.WholeReaders.{whole_type};

    type Part = Ty<'a>;

    ghost Tree = { TypeTree };

    ghost view = { ty_view };

    ghost usable = { λ _. Unit {0} };

    ghost reader = { λ _ w. whole_type w };

    fn read(&self, input: &mut Input<'_, 'a>) -> Read<Ty<'a>> {
        ty(input)
    }
}

/// A field with a name.
fn field<'a>(input: &mut Input<'_, 'a>) -> Read<Field<'a>>
    ensures { Reads tree.field_view (spec.read_field parts) input.old result input.new }
{
    let begun = input.cursor();
    let (attrs, (vis, (name, ty))) = marked(&NamedType, input)?;
    Ok(Field {
        attrs,
        vis,
        ident: Some(name),
        ty,
        span: input.since(begun),
    })
}

/// A field without a name.
fn slot<'a>(input: &mut Input<'_, 'a>) -> Read<Field<'a>>
    ensures { Reads tree.field_view (spec.read_slot parts) input.old result input.new }
{
    let begun = input.cursor();
    let (attrs, (vis, ty)) = marked(&OnlyType, input)?;
    Ok(Field {
        attrs,
        vis,
        ident: None,
        ty,
        span: input.since(begun),
    })
}

/// Fields with names.
#[derive(Clone, Copy)]
pub struct FieldRule;

impl<'a> Rule<'a> for FieldRule {
    ghost use Rattle.dm_ast.specs.Declarations.{FieldTree, field_view};
    ghost use Rattle.dm_read.specs.DeclarationReaders as spec;
    ghost use Rattle.dm_read_paths.specs.WholeReaders.{parts};

    type Part = Field<'a>;

    ghost Tree = { FieldTree };

    ghost view = { field_view };

    ghost usable = { λ _. Unit {0} };

    ghost reader = { λ _ w. spec.read_field parts w };

    fn read(&self, input: &mut Input<'_, 'a>) -> Read<Field<'a>> {
        field(input)
    }
}

/// Fields without names.
#[derive(Clone, Copy)]
struct SlotRule;

impl<'a> Rule<'a> for SlotRule {
    ghost use Rattle.dm_ast.specs.Declarations.{FieldTree, field_view};
    ghost use Rattle.dm_read.specs.DeclarationReaders as spec;
    ghost use Rattle.dm_read_paths.specs.WholeReaders.{parts};

    type Part = Field<'a>;

    ghost Tree = { FieldTree };

    ghost view = { field_view };

    ghost usable = { λ _. Unit {0} };

    ghost reader = { λ _ w. spec.read_slot parts w };

    fn read(&self, input: &mut Input<'_, 'a>) -> Read<Field<'a>> {
        slot(input)
    }
}

/// Fields in braces.
pub fn fields<'a>(input: &mut Input<'_, 'a>) -> Read<Punctuated<Field<'a>>>
    ensures { Reads (tree.listed tree.field_view) (spec.read_fields parts) input.old result input.new }
{
    enclosed(&FieldRule, Delim::Brace, input)
}

/// Fields in parentheses.
pub fn slots<'a>(input: &mut Input<'_, 'a>) -> Read<Punctuated<Field<'a>>>
    ensures { Reads (tree.listed tree.field_view) (spec.read_slots parts) input.old result input.new }
{
    enclosed(&SlotRule, Delim::Paren, input)
}

/// The fields of a variant.
pub fn variant_fields<'a>(input: &mut Input<'_, 'a>) -> Read<Fields<'a>>
    ensures { Reads tree.fields_view (spec.read_variant_fields parts) input.old result input.new }
{
    if input.sees_group(Delim::Brace) {
        return Ok(Fields::Named(fields(input)?));
    }
    if input.sees_group(Delim::Paren) {
        return Ok(Fields::Unnamed(slots(input)?));
    }
    Ok(Fields::Unit)
}
