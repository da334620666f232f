//! The walk over the places of a declaration that an operator looks at: it gives the cases that it works on, or the first refusal.
#![tactic(auto, using(crate::proofs::WalkLaws::walk_steps))]

ghost use Rattle.std.specs.Prelude.{◌≡◌, [], ◌∷◌, map, false, None, ◌&&◌, ◌||◌};
ghost use Rattle.dm_stream.specs.declared.error.Error.TheVariants.{Refused};
ghost use Rattle.dm_ast.specs.Declarations.{declaration_view, variant_view, fields_view};
ghost use Rattle.dm_output.specs.Values as values;
ghost use Rattle.dm_attr.specs.Answers.{IsWalked};
ghost use Rattle.dm_operands.specs.CaseViews.{case_view, field_ref_view};
ghost use Rattle.dm_operands.specs.Marked as marked;
ghost use Rattle.dm_operands.specs.Marked.{mark_field};
ghost use Rattle.dm_operators.specs.Operators as ops;
ghost use Rattle.dm_operators.specs.Attributes.{skipped_under, keeps_all, forwards, form_by};
ghost use Rattle.dm_operators.specs.Meaning as meaning;
ghost use Rattle.dm_operators.specs.Refusals as spec;
ghost use Rattle.dm_operators.specs.Plans as plans;
ghost use Rattle.dm_operators.specs.Table.{form_view, operator_view};

use crate::operator::{Form, Operator};
use dm_ast::{Attribute, Data, DeriveInput, Fields, Variant};
use dm_attr::skips::{is_forwarded_under, is_skipped_under, refuse_skip};
use dm_operands::cases::{CaseRef, FieldRef, is_enum, keeps_some};
use dm_operands::places::{Leaving, add, form_of, marked_fields};
use dm_stream::{Error, Ident, Kind, Read, Refusal, Span};
use std::alloc::Global;

/// In which form an operator is implemented for a declaration, and on which cases it works: the variants of an enum, or the struct, each
/// field marked whether it is skipped.
#[derive(Drop)]
pub struct Plan<'x, 'a> {
    pub form: Form,
    pub cases: Vec<CaseRef<'x, 'a>>,
}

/// The attributes under its method's name.
impl Leaving for Operator {
    ghost refuses = { λ o. spec.skip_refusal (operator_view o) };

    ghost leaves_out = { λ o. skipped_under o.method.now };

    fn is_left_out(&self, alloc: Global, attrs: &[Attribute<'_>]) -> Result<bool, Error> {
        is_skipped_under(alloc, attrs, self.method)
    }
}

/// No field is left out.
struct Whole;

impl Leaving for Whole {
    ghost refuses = { λ _ _. None };

    ghost leaves_out = { λ _. keeps_all };

    fn is_left_out(&self, _alloc: Global, _attrs: &[Attribute<'_>]) -> Result<bool, Error> {
        Ok(false)
    }
}

fn refused(kind: Kind, span: Span) -> Error
    ensures { result ≡ Refused (record { kind = kind; span = span }) }
{
    Error::Refused(Refusal { kind, span })
}

/// The range of the word `struct`, `enum` or `union`.
fn word_of(input: &DeriveInput<'_>) -> Span
    ensures { result ≡ spec.word_of (declaration_view input.now).shape }
{
    match &input.shape {
        Data::Struct(data) => data.word,
        Data::Enum(data) => data.word,
        Data::Union(data) => data.word,
    }
}

fn is_union(input: &DeriveInput<'_>) -> bool
    ensures { result ≡ spec.is_union (declaration_view input.now).shape }
{
    match &input.shape {
        Data::Struct(_) => false,
        Data::Enum(_) => false,
        Data::Union(_) => true,
    }
}

/// Whether there are no parentheses and no braces.
pub fn is_unit(fields: &Fields<'_>) -> bool
    ensures { result ≡ meaning.is_unit (fields_view fields.now) }
{
    match fields {
        Fields::Named(_) => false,
        Fields::Unnamed(_) => false,
        Fields::Unit => true,
    }
}

fn is_unit_struct(input: &DeriveInput<'_>) -> bool
    ensures { result ≡ spec.is_unit_struct (declaration_view input.now).shape }
{
    match &input.shape {
        Data::Struct(data) => is_unit(&data.fields),
        Data::Enum(_) => false,
        Data::Union(_) => false,
    }
}

/// The fields, each marked whether it is skipped, or the first refusal: of the attributes of one, or at this range that none is left.
fn kept_fields<'x, 'a>(
    alloc: Global,
    fields: &'x Fields<'a>,
    operator: &Operator,
    at: Span,
) -> Read<Vec<FieldRef<'x, 'a>>>
    ensures { IsWalked (plans.fields_refusal (operator_view operator.now) at (values.field_list (fields_view fields.now)))
        (λ x. map field_ref_view x.items ≡ map (mark_field (skipped_under operator.now.method.now)) (values.field_list (fields_view fields.now))) result }
{
    let found = marked_fields(fields, operator, alloc)?;
    if keeps_some(found.as_slice()) {
        return Ok(found);
    }
    Err(refused(Kind::AllSkipped, at))
}

/// The fields of a variant, which needs none.
fn variant_fields<'x, 'a>(
    alloc: Global,
    variant: &'x Variant<'a>,
    operator: &Operator,
) -> Read<Vec<FieldRef<'x, 'a>>>
    ensures { IsWalked (plans.own_refusal (operator_view operator.now) (variant_view variant.now))
        (λ x. map field_ref_view x.items ≡ map (mark_field (skipped_under operator.now.method.now)) (values.field_list (fields_view variant.now.fields))) result }
{
    match &variant.fields {
        Fields::Named(_) => kept_fields(alloc, &variant.fields, operator, variant.span),
        Fields::Unnamed(_) => kept_fields(alloc, &variant.fields, operator, variant.span),
        Fields::Unit => Ok(Vec::new(alloc)),
    }
}

/// A variant, which isn't skipped itself.
fn variant_case<'x, 'a>(
    alloc: Global,
    variant: &'x Variant<'a>,
    operator: &Operator,
) -> Read<CaseRef<'x, 'a>>
    ensures { IsWalked (plans.variant_refusal (operator_view operator.now) (variant_view variant.now))
        (λ c. case_view c ≡ plans.opened (skipped_under operator.now.method.now) (values.case_of_variant (variant_view variant.now))) result }
{
    refuse_skip(alloc, variant.attrs.as_slice(), operator.method)?;
    let fields = variant_fields(alloc, variant, operator)?;
    Ok(CaseRef {
        ident: &variant.ident,
        form: form_of(&variant.fields),
        left_out: false,
        fields,
    })
}

fn variant_cases<'x, 'a>(
    alloc: Global,
    variants: &'x [Variant<'a>],
    operator: &Operator,
) -> Read<Vec<CaseRef<'x, 'a>>>
    ensures { IsWalked (plans.first_variant (operator_view operator.now) (map variant_view variants.now))
        (λ x. plans.AreOpened (skipped_under operator.now.method.now) (map values.case_of_variant (map variant_view variants.now)) x.items) result }
{
    let mut out = Vec::with_capacity(alloc, variants.len())?;
    for variant in variants {
        match variant_case(alloc, variant, operator) {
            Ok(next) => add(&mut out, next)?,
            Err(error) => return Err(error),
        }
    }
    Ok(out)
}

/// A struct with these fields as the only case.
fn only_case<'x, 'a>(
    alloc: Global,
    ident: &'x Ident<'a>,
    fields: &'x Fields<'a>,
    kept: Vec<FieldRef<'x, 'a>>,
) -> Read<Vec<CaseRef<'x, 'a>>>
    ensures { IsWalked None (λ x. map case_view x.items ≡
        record { ident = ident.now; form = marked.form_of (fields_view fields.now); left_out = false; fields = map field_ref_view kept.entry.items } ∷ []) result }
{
    let mut out = Vec::new(alloc);
    add(
        &mut out,
        CaseRef {
            ident,
            form: form_of(fields),
            left_out: false,
            fields: kept,
        },
    )?;
    Ok(out)
}

/// The struct, or the variants of an enum, whose attributes are looked at.
fn part_cases<'x, 'a>(
    alloc: Global,
    input: &'x DeriveInput<'a>,
    operator: &Operator,
) -> Read<Vec<CaseRef<'x, 'a>>>
    ensures { IsWalked (plans.parts_refusal (operator_view operator.now) (declaration_view input.now).shape)
        (λ x. plans.AreOpened (skipped_under operator.now.method.now) (values.cases (declaration_view input.now)) x.items) result }
{
    match &input.shape {
        Data::Struct(data) => {
            let kept = kept_fields(alloc, &data.fields, operator, data.word)?;
            only_case(alloc, &input.ident, &data.fields, kept)
        }
        Data::Enum(data) => variant_cases(alloc, data.variants.items.as_slice(), operator),
        Data::Union(data) => Err(refused(Kind::WrongShape, data.word)),
    }
}

/// Refuses the declaration at its word where its shape is wrong.
fn refuse_shape(input: &DeriveInput<'_>, wrong: bool) -> Read<()>
    ensures { IsWalked (spec.wrong_if wrong (declaration_view input.now)) (λ _. Unit {0}) result }
{
    if wrong {
        return Err(refused(Kind::WrongShape, word_of(input)));
    }
    Ok(())
}

/// Whether the operator changes an enum in its place.
fn assigns_enum(input: &DeriveInput<'_>, operator: &Operator) -> bool
    ensures { result ≡ (operator.now.assigning && values.is_enum (declaration_view input.now)) }
{
    operator.assigning && is_enum(input)
}

/// With a value of the same type on the right.
fn structural_cases<'x, 'a>(
    alloc: Global,
    input: &'x DeriveInput<'a>,
    operator: &Operator,
) -> Read<Vec<CaseRef<'x, 'a>>>
    ensures { IsWalked (plans.structural_refusal (operator_view operator.now) (declaration_view input.now))
        (λ x. plans.AreOpened (skipped_under operator.now.method.now) (values.cases (declaration_view input.now)) x.items) result }
{
    refuse_shape(input, is_union(input) || assigns_enum(input, operator))?;
    refuse_skip(alloc, input.attrs.as_slice(), operator.method)?;
    refuse_shape(input, is_unit_struct(input))?;
    part_cases(alloc, input, operator)
}

/// Whether no operator with any value on the right is there for a declaration of this shape.
fn has_no_form(input: &DeriveInput<'_>, operator: &Operator) -> bool
    ensures { result ≡ (spec.is_union (declaration_view input.now).shape || (spec.is_unit_struct (declaration_view input.now).shape ||
        (operator.now.assigning && values.is_enum (declaration_view input.now)))) }
{
    is_union(input) || is_unit_struct(input) || assigns_enum(input, operator)
}

/// What stands right of self, any value or one of the same type, as the type's attributes say.
fn scalar_form(alloc: Global, input: &DeriveInput<'_>, operator: &Operator) -> Read<Form>
    ensures { IsWalked (plans.type_refusal (operator_view operator.now) (declaration_view input.now))
        (λ f. form_view f ≡ form_by ops.scalar (forwards (operator_view operator.now) input.now.attrs)) result }
{
    refuse_shape(input, has_no_form(input, operator))?;
    if is_forwarded_under(alloc, input.attrs.as_slice(), operator.method)? {
        return Ok(Form::Structural);
    }
    refuse_shape(input, is_enum(input))?;
    Ok(Form::Scalar)
}

fn scalar_plan<'x, 'a>(
    alloc: Global,
    input: &'x DeriveInput<'a>,
    operator: &Operator,
) -> Read<Plan<'x, 'a>>
    ensures { IsWalked (plans.scalar_refusal (operator_view operator.now) (declaration_view input.now))
        (λ p. (form_view p.form ≡ form_by ops.scalar (forwards (operator_view operator.now) input.now.attrs)) ×
        plans.AreOpened (skipped_under operator.now.method.now) (values.cases (declaration_view input.now)) p.cases.items) result }
{
    let form = scalar_form(alloc, input, operator)?;
    let cases = part_cases(alloc, input, operator)?;
    Ok(Plan { form, cases })
}

/// A case whose attributes aren't looked at.
fn whole_case<'x, 'a>(
    alloc: Global,
    ident: &'x Ident<'a>,
    fields: &'x Fields<'a>,
) -> Read<CaseRef<'x, 'a>>
    ensures { IsWalked None (λ c. case_view c ≡ plans.opened keeps_all (record { attrs = []; ident = ident.now; fields = fields_view fields.now })) result }
{
    let found = marked_fields(fields, &Whole, alloc)?;
    Ok(CaseRef {
        ident,
        form: form_of(fields),
        left_out: false,
        fields: found,
    })
}

fn whole_variants<'x, 'a>(alloc: Global, variants: &'x [Variant<'a>]) -> Read<Vec<CaseRef<'x, 'a>>>
    ensures { IsWalked None (λ x. plans.AreOpened keeps_all (map values.case_of_variant (map variant_view variants.now)) x.items) result }
{
    let mut out = Vec::with_capacity(alloc, variants.len())?;
    for variant in variants {
        match whole_case(alloc, &variant.ident, &variant.fields) {
            Ok(next) => add(&mut out, next)?,
            Err(error) => return Err(error),
        }
    }
    Ok(out)
}

fn whole_struct<'x, 'a>(
    alloc: Global,
    ident: &'x Ident<'a>,
    fields: &'x Fields<'a>,
) -> Read<Vec<CaseRef<'x, 'a>>>
    ensures { IsWalked None (λ x. plans.AreOpened keeps_all (record { attrs = []; ident = ident.now; fields = fields_view fields.now } ∷ []) x.items) result }
{
    let case = whole_case(alloc, ident, fields)?;
    let mut out = Vec::new(alloc);
    add(&mut out, case)?;
    Ok(out)
}

/// The struct, or the variants of an enum, whose attributes aren't looked at.
fn whole_cases<'x, 'a>(alloc: Global, input: &'x DeriveInput<'a>) -> Read<Vec<CaseRef<'x, 'a>>>
    ensures { IsWalked (plans.whole_refusal (declaration_view input.now).shape)
        (λ x. plans.AreOpened keeps_all (values.cases (declaration_view input.now)) x.items) result }
{
    match &input.shape {
        Data::Struct(data) => whole_struct(alloc, &input.ident, &data.fields),
        Data::Enum(data) => whole_variants(alloc, data.variants.items.as_slice()),
        Data::Union(data) => Err(refused(Kind::WrongShape, data.word)),
    }
}

/// Without a right side.
fn unary_cases<'x, 'a>(alloc: Global, input: &'x DeriveInput<'a>) -> Read<Vec<CaseRef<'x, 'a>>>
    ensures { IsWalked (plans.unary_refusal (declaration_view input.now))
        (λ x. plans.AreOpened keeps_all (values.cases (declaration_view input.now)) x.items) result }
{
    refuse_shape(input, is_union(input) || is_unit_struct(input))?;
    whole_cases(alloc, input)
}

fn planned<'x, 'a>(form: Form, cases: Result<Vec<CaseRef<'x, 'a>>, Error>) -> Read<Plan<'x, 'a>>
    ensures { result ≡ plans.planned form cases.entry }
{
    match cases {
        Ok(cases) => Ok(Plan { form, cases }),
        Err(error) => Err(error),
    }
}

/// In which form the operator is implemented for a declaration, and on which cases it works, or the first refusal in derive_more's order.
///
/// With a value of the same type on the right: `WrongShape` at the word `union`, or `enum` where self is changed in its place; an attribute
/// of the method's name at the type; `WrongShape` at the word of a unit struct; then each field's attributes and `AllSkipped` where none is
/// left, at the word `struct`, or at the variant, whose own attributes stand before its fields'. With any value on the right the shape is
/// refused first, then the attributes at the type, `#[METHOD(forward)]` alone being allowed, then an enum that isn't forwarded. Without a
/// right side only the shape is looked at. The refusals of attributes are those of [dm_attr::skips].
pub fn plan_for<'x, 'a>(
    alloc: Global,
    input: &'x DeriveInput<'a>,
    operator: &Operator,
) -> Read<Plan<'x, 'a>>
    ensures { plans.IsPlanned (operator_view operator.now) (declaration_view input.now) result }
{
    match operator.form {
        Form::Structural => planned(Form::Structural, structural_cases(alloc, input, operator)),
        Form::Scalar => scalar_plan(alloc, input, operator),
        Form::Unary => planned(Form::Unary, unary_cases(alloc, input)),
    }
}
