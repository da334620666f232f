//! The one walk over the places of a declaration: it reads their attributes, and gives the cases or the first refusal.
#![tactic(auto, using(crate::proofs::PlaceLaws::place_steps))]

ghost use Rattle.std.specs.Prelude.{◌≡◌, [], ◌∷◌, ◌++◌, List, Bool, Option, map, OnOk};
ghost use Rattle.dm_ast.specs.Declarations.{declaration_view, variant_view, fields_view, field_view};
ghost use Rattle.dm_stream.specs.declared.error.Kind.TheVariants.{WrongShape};
ghost use Rattle.dm_stream.specs.declared.error.Refusal.{Refusal};
ghost use Rattle.dm_ast.specs.declared.plain.Attribute.{Attribute};
ghost use Rattle.dm_output.specs.Values as values;
ghost use Rattle.dm_attr.specs.Skips.{is_skipped};
ghost use Rattle.dm_attr.specs.SkipRefusals.{place_refusal};
ghost use Rattle.dm_operands.specs.Marked as marked;
ghost use Rattle.dm_operands.specs.Places as spec;
ghost use Rattle.dm_operands.specs.CaseViews.{field_ref_view};

use crate::cases::{CaseRef, FieldRef, Form};
use dm_ast::{Attribute, Data, DeriveInput, Field, Fields, Variant};
use dm_attr::skips::is_left_out;
use dm_stream::{Error, Ident, Kind, Made, Read, Refusal, Span};
use std::alloc::Global;

/// Adds an item.
pub fn add<T: Drop>(out: &mut Vec<T>, item: T) -> Made<()>
    ensures { OnOk result (out.new.items ≡ out.old.items ++ item ∷ []) }
{
    out.push(item)?;
    Ok(())
}

/// What tells of a place, by its attributes, whether it is left out.
pub trait Leaving {
    /// The first refusal of attributes.
    ghost refuses: { Self → List Attribute → Option Refusal };

    /// Whether the place with these attributes is left out.
    ghost leaves_out: { Self → List Attribute → Bool };

    /// Whether the place with these attributes is left out, or their first refusal.
    fn is_left_out(&self, alloc: Global, attrs: &[Attribute<'_>]) -> Result<bool, Error>
        ensures { spec.IsWalked (refuses self.now attrs.now) (λ b. b ≡ leaves_out self.now attrs.now) result };
}

/// The attributes that `PartialEq` looks at.
struct Compared;

impl Leaving for Compared {
    ghost refuses = { λ _. place_refusal };

    ghost leaves_out = { λ _. is_skipped };

    fn is_left_out(&self, alloc: Global, attrs: &[Attribute<'_>]) -> Result<bool, Error> {
        is_left_out(alloc, attrs)
    }
}

fn field_ref<'x, 'a, L: Leaving>(
    field: &'x Field<'a>,
    leaving: &L,
    alloc: Global,
) -> Read<FieldRef<'x, 'a>>
    ensures { spec.IsWalked (L.refuses leaving.now field.now.attrs) (λ f. field_ref_view f ≡ marked.mark_field (L.leaves_out leaving.now) (field_view field.now)) result }
{
    let left_out = leaving.is_left_out(alloc, field.attrs.as_slice())?;
    Ok(FieldRef { field, left_out })
}

fn field_refs<'x, 'a, L: Leaving>(
    fields: &'x [Field<'a>],
    leaving: &L,
    alloc: Global,
) -> Read<Vec<FieldRef<'x, 'a>>>
    ensures { spec.AreFieldsMarked (L.refuses leaving.now) (L.leaves_out leaving.now) (map field_view fields.now) result }
{
    let mut out = Vec::with_capacity(alloc, fields.len())?;
    for field in fields {
        match field_ref(field, leaving, alloc) {
            Ok(next) => add(&mut out, next)?,
            Err(error) => return Err(error),
        }
    }
    Ok(out)
}

/// What stands around fields.
pub fn form_of(fields: &Fields<'_>) -> Form
    ensures { result ≡ marked.form_of (fields_view fields.now) }
{
    match fields {
        Fields::Named(_) => Form::Named,
        Fields::Unnamed(_) => Form::Unnamed,
        Fields::Unit => Form::Unit,
    }
}

/// The fields, each marked whether it is left out, or the first refusal of one.
pub fn marked_fields<'x, 'a, L: Leaving>(
    fields: &'x Fields<'a>,
    leaving: &L,
    alloc: Global,
) -> Read<Vec<FieldRef<'x, 'a>>>
    ensures { spec.AreFieldsMarked (L.refuses leaving.now) (L.leaves_out leaving.now) (values.field_list (fields_view fields.now)) result }
{
    match fields {
        Fields::Named(all) => field_refs(all.items.as_slice(), leaving, alloc),
        Fields::Unnamed(all) => field_refs(all.items.as_slice(), leaving, alloc),
        Fields::Unit => Ok(Vec::new(alloc)),
    }
}

fn case_ref<'x, 'a>(
    alloc: Global,
    attrs: &'x [Attribute<'a>],
    ident: &'x Ident<'a>,
    fields: &'x Fields<'a>,
) -> Read<CaseRef<'x, 'a>>
    ensures { spec.IsCaseWalked (record { attrs = attrs.now; ident = ident.now; fields = fields_view fields.now }) result }
{
    let left_out = is_left_out(alloc, attrs)?;
    let form = form_of(fields);
    let fields = if left_out {
        Vec::new(alloc)
    } else {
        marked_fields(fields, &Compared, alloc)?
    };
    Ok(CaseRef {
        ident,
        form,
        left_out,
        fields,
    })
}

fn case_of_variant<'x, 'a>(alloc: Global, variant: &'x Variant<'a>) -> Read<CaseRef<'x, 'a>>
    ensures { spec.IsCaseWalked (values.case_of_variant (variant_view variant.now)) result }
{
    case_ref(
        alloc,
        variant.attrs.as_slice(),
        &variant.ident,
        &variant.fields,
    )
}

fn cases_of_variants<'x, 'a>(
    alloc: Global,
    variants: &'x [Variant<'a>],
) -> Read<Vec<CaseRef<'x, 'a>>>
    ensures { spec.AreCasesWalked (map values.case_of_variant (map variant_view variants.now)) result }
{
    let mut out = Vec::with_capacity(alloc, variants.len())?;
    for variant in variants {
        match case_of_variant(alloc, variant) {
            Ok(next) => add(&mut out, next)?,
            Err(error) => return Err(error),
        }
    }
    Ok(out)
}

/// A struct with these fields as its only case.
fn only_case<'x, 'a>(
    alloc: Global,
    input: &'x DeriveInput<'a>,
    fields: &'x Fields<'a>,
) -> Read<Vec<CaseRef<'x, 'a>>>
    ensures { spec.AreCasesWalked (record { attrs = input.now.attrs; ident = input.now.ident; fields = fields_view fields.now } ∷ []) result }
{
    let case = case_ref(alloc, input.attrs.as_slice(), &input.ident, fields)?;
    let mut out = Vec::new(alloc);
    add(&mut out, case)?;
    Ok(out)
}

fn union_refusal(word: Span) -> Refusal
    ensures { result ≡ record { kind = WrongShape; span = word } }
{
    Refusal {
        kind: Kind::WrongShape,
        span: word,
    }
}

/// The variants of an enum, or a struct as the only case, each marked whether it is left out, or the first refusal in the order of
/// the text: of a case's own attributes, then of its fields' unless it is left out. A union is refused at its word.
pub fn cases_of<'x, 'a>(alloc: Global, input: &'x DeriveInput<'a>) -> Read<Vec<CaseRef<'x, 'a>>>
    ensures { spec.IsMarking (declaration_view input.now) result }
{
    match &input.shape {
        Data::Struct(shape) => only_case(alloc, input, &shape.fields),
        Data::Enum(shape) => cases_of_variants(alloc, shape.variants.items.as_slice()),
        Data::Union(shape) => Err(Error::Refused(union_refusal(shape.word))),
    }
}
