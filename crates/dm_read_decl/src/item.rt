//! Structs, enums and unions.
#![tactic(auto)]

ghost use Rattle.std.specs.Prelude.{codes};
ghost use Rattle.dm_ast.specs.Declarations as tree;
ghost use Rattle.dm_read.specs.DeclarationReaders as spec;
ghost use Rattle.dm_read_paths.specs.WholeReaders.{parts};
ghost use Rattle.dm_read_decl.specs.Rules as rules;
ghost use Rattle.dm_read_decl.specs.ShapeViews as views;
ghost use Rattle.dm_read_decl.specs.ShapeViews.{both_views, second_view};
ghost use Rattle.dm_input.specs.Inputs.{Reads};

use crate::field::{FieldRule, fields, slots};
use crate::forms::enclosed;
use crate::generics::{AngledParams, Clause, generics, where_clause};
use crate::variant::VariantRule;
use dm_ast::{Data, DataEnum, DataStruct, DataUnion, Field, Fields, Generics, Variant};
use dm_input::Input;
use dm_input::join::{ended, joined};
use dm_input::list::Rule;
use dm_stream::{Delim, Ident, Punctuated, Read, Span};

/// A shape, its name and its generics.
type NamedShape<'a> = (Data<'a>, (Ident<'a>, Generics<'a>));

/// The range of a word.
#[tactic(auto, using(crate::proofs::WordRanges::word_range))]
fn word_at<'a>(word: &str, input: &mut Input<'_, 'a>) -> Read<Span>
    ensures { Reads (λ s. s) (spec.read_word_at word.now) input.old result input.new }
{
    let span = input.front();
    input.word(word)?;
    Ok(span)
}

/// Generics, and what follows them.
fn behind_name<'a, R: Rule<'a>>(
    rule: &R,
    input: &mut Input<'_, 'a>,
) -> Read<(AngledParams<'a>, R::Part)>
    requires { R.usable rule.now }
    ensures { Reads (both_views views.angled_view R.view) (rules.behind_name (R.reader rule.now)) input.old result input.new }
{
    let found = generics(input)?;
    joined(found, rule.read(input))
}

/// A name, generics, and what follows them.
fn behind_word<'a, R: Rule<'a>>(
    rule: &R,
    input: &mut Input<'_, 'a>,
) -> Read<(Ident<'a>, (AngledParams<'a>, R::Part))>
    requires { R.usable rule.now }
    ensures { Reads (second_view (both_views views.angled_view R.view)) (rules.behind_word (R.reader rule.now)) input.old result input.new }
{
    let name = input.name()?;
    joined(name, behind_name(rule, input))
}

/// A word, a name, generics, and what follows them.
fn headed<'a, R: Rule<'a>>(
    rule: &R,
    word: &str,
    input: &mut Input<'_, 'a>,
) -> Read<(Span, (Ident<'a>, (AngledParams<'a>, R::Part)))>
    requires { R.usable rule.now }
    ensures { Reads (second_view (second_view (both_views views.angled_view R.view))) (rules.headed word.now (R.reader rule.now)) input.old result input.new }
{
    let span = word_at(word, input)?;
    joined(span, behind_word(rule, input))
}

/// A `where` clause where one comes next, and parts in braces.
fn braces<'a, R: Rule<'a>>(
    item: &R,
    input: &mut Input<'_, 'a>,
) -> Read<(Clause<'a>, Punctuated<R::Part>)>
    requires { R.usable item.now }
    ensures { Reads (both_views views.clause_view (tree.listed R.view)) (rules.read_braces (R.reader item.now)) input.old result input.new }
{
    let clause = where_clause(input)?;
    joined(clause, enclosed(item, Delim::Brace, input))
}

/// What follows the generics of an enum or a union.
#[derive(Clone, Copy)]
struct BracesRule<R> {
    /// Reads one of the parts.
    item: R,
}

impl<'a, R: Rule<'a>> Rule<'a> for BracesRule<R> {
    ghost use Rattle.std.specs.Prelude.{Option};
    ghost use Rattle.dm_ast.specs.Declarations.{Listed, PredicateTree, listed};
    ghost use Rattle.dm_read_decl.specs.Rules as rules;
    ghost use Rattle.dm_read_decl.specs.ShapeViews.{both_views, clause_view};

    type Part = (Clause<'a>, Punctuated<R::Part>);

    ghost Tree = { Option (Listed PredicateTree) × Listed R.Tree };

    ghost view = { both_views clause_view (listed R.view) };

    ghost usable = { λ r. R.usable r.item };

    ghost reader = { λ r w. rules.read_braces (R.reader r.item) w };

    fn read(&self, input: &mut Input<'_, 'a>) -> Read<(Clause<'a>, Punctuated<R::Part>)> {
        braces(&self.item, input)
    }
}

/// An enum, its name and its generics.
fn enum_item<'a>(input: &mut Input<'_, 'a>) -> Read<NamedShape<'a>>
    ensures { Reads views.shaped_view (spec.read_braced parts (codes "enum") (spec.read_variants parts) tree.enum_shape) input.old result input.new }
{
    let rule = BracesRule { item: VariantRule };
    let (word, (ident, ((angled, params), (where_clause, variants)))) = headed(
        &rule, "enum", input,
    )?;
    let generics = Generics {
        angled,
        params,
        where_clause,
    };
    Ok((Data::Enum(DataEnum { word, variants }), (ident, generics)))
}

/// A union, its name and its generics.
fn union_item<'a>(input: &mut Input<'_, 'a>) -> Read<NamedShape<'a>>
    ensures { Reads views.shaped_view (spec.read_braced parts (codes "union") (spec.read_fields parts) tree.union_shape) input.old result input.new }
{
    let rule = BracesRule { item: FieldRule };
    let (word, (ident, ((angled, params), (where_clause, fields)))) = headed(
        &rule, "union", input,
    )?;
    let generics = Generics {
        angled,
        params,
        where_clause,
    };
    Ok((Data::Union(DataUnion { word, fields }), (ident, generics)))
}

/// Fields in braces, or `;`.
fn named_or_unit<'a>(input: &mut Input<'_, 'a>) -> Read<Fields<'a>>
    ensures { Reads tree.fields_view (spec.read_named_or_unit parts) input.old result input.new }
{
    if input.sees_group(Delim::Brace) {
        return Ok(Fields::Named(fields(input)?));
    }
    input.punct(';')?;
    Ok(Fields::Unit)
}

/// A `where` clause where one comes next, and the `;` behind it.
fn ended_where<'a>(input: &mut Input<'_, 'a>) -> Read<Clause<'a>>
    ensures { Reads views.clause_view rules.read_ended_where input.old result input.new }
{
    let found = where_clause(input)?;
    ended(found, input.punct(';'))
}

/// The fields of a struct in parentheses, and what stands behind them.
fn slots_body<'a>(input: &mut Input<'_, 'a>) -> Read<(Punctuated<Field<'a>>, Clause<'a>)>
    ensures { Reads (both_views (tree.listed tree.field_view) views.clause_view) rules.read_slots_body input.old result input.new }
{
    let found = slots(input)?;
    joined(found, ended_where(input))
}

/// A `where` clause where one comes next, and the fields in braces or `;`.
fn other_body<'a>(input: &mut Input<'_, 'a>) -> Read<(Clause<'a>, Fields<'a>)>
    ensures { Reads (both_views views.clause_view tree.fields_view) rules.read_other_body input.old result input.new }
{
    let clause = where_clause(input)?;
    joined(clause, named_or_unit(input))
}

/// What follows the generics of a struct.
#[derive(Clone, Copy)]
struct StructBody;

impl<'a> Rule<'a> for StructBody {
    ghost use Rattle.std.specs.Prelude.{Option};
    ghost use Rattle.dm_ast.specs.Declarations.{Listed, FieldsTree, PredicateTree};
    ghost use Rattle.dm_read.specs.DeclarationReaders as spec;
    ghost use Rattle.dm_read_paths.specs.WholeReaders.{parts};
    ghost use Rattle.dm_read_decl.specs.ShapeViews.{struct_view};

    type Part = (Fields<'a>, Clause<'a>);

    ghost Tree = { FieldsTree × Option (Listed PredicateTree) };

    ghost view = { struct_view };

    ghost usable = { λ _. Unit {0} };

    ghost reader = { λ _ w. spec.read_struct_body parts w };

    fn read(&self, input: &mut Input<'_, 'a>) -> Read<(Fields<'a>, Clause<'a>)> {
        if input.sees_group(Delim::Paren) {
            let (found, clause) = slots_body(input)?;
            return Ok((Fields::Unnamed(found), clause));
        }
        let (clause, found) = other_body(input)?;
        Ok((found, clause))
    }
}

/// A struct, its name and its generics.
fn struct_item<'a>(input: &mut Input<'_, 'a>) -> Read<NamedShape<'a>>
    ensures { Reads views.shaped_view (spec.read_struct parts) input.old result input.new }
{
    let (word, (ident, ((angled, params), (fields, where_clause)))) = headed(
        &StructBody,
        "struct",
        input,
    )?;
    let generics = Generics {
        angled,
        params,
        where_clause,
    };
    Ok((Data::Struct(DataStruct { word, fields }), (ident, generics)))
}

/// A struct, an enum or a union, its name and its generics.
fn shape<'a>(input: &mut Input<'_, 'a>) -> Read<NamedShape<'a>>
    ensures { Reads views.shaped_view (spec.read_shape parts) input.old result input.new }
{
    if input.sees_word("struct") {
        return struct_item(input);
    }
    if input.sees_word("enum") {
        return enum_item(input);
    }
    union_item(input)
}

/// Structs, enums and unions.
#[derive(Clone, Copy)]
pub struct ShapeRule;

impl<'a> Rule<'a> for ShapeRule {
    ghost use Rattle.dm_read.specs.DeclarationReaders as spec;
    ghost use Rattle.dm_read.specs.DeclarationReaders.{Shaped};
    ghost use Rattle.dm_read_paths.specs.WholeReaders.{parts};
    ghost use Rattle.dm_read_decl.specs.ShapeViews.{shaped_view};

    type Part = NamedShape<'a>;

    ghost Tree = { Shaped };

    ghost view = { shaped_view };

    ghost usable = { λ _. Unit {0} };

    ghost reader = { λ _ w. spec.read_shape parts w };

    fn read(&self, input: &mut Input<'_, 'a>) -> Read<NamedShape<'a>> {
        shape(input)
    }
}
