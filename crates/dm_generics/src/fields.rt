//! Fields as lists of references, their names and their types.

ghost use Rattle.std.specs.Prelude.{◌≡◌, All, map, Some, IsSome, IfOk};
ghost use Rattle.dm_generics.specs.Lent.{lent};

use dm_ast::{Field, Ty};
use dm_stream::{Ident, Made, Punctuated, Seq};
use std::alloc::{AllocError, Global};

fn name_of<'x, 'a>(field: &'x Field<'a>) -> &'x Ident<'a>
    requires { IsSome field.now.ident }
    ensures { Some result.now ≡ field.now.ident }
{
    match &field.ident {
        Some(ident) => ident,
        None => unreachable!(),
    }
}

/// The names of fields that stand in braces.
pub fn field_idents<'x, 'a>(
    alloc: Global,
    fields: &[&'x Field<'a>],
) -> Result<Seq<&'x Ident<'a>>, AllocError>
    requires { All (λ f. IsSome f.now.ident) fields.now }
    ensures { IfOk result (λ is. map Some (lent is) ≡ map (λ f. f.ident) (lent fields.now)) }
{
    let mut out = Seq::with_capacity(alloc, fields.len())?;
    for field in fields {
        out.add(name_of(field))?;
    }
    Ok(out)
}

pub fn get_field_types<'x, 'a>(
    alloc: Global,
    fields: &[&'x Field<'a>],
) -> Result<Seq<&'x Ty<'a>>, AllocError>
    ensures { IfOk result (λ ts. lent ts ≡ map (λ f. f.ty) (lent fields.now)) }
{
    let mut out = Seq::with_capacity(alloc, fields.len())?;
    for field in fields {
        out.add(&field.ty)?;
    }
    Ok(out)
}

fn references<'x, 'a>(alloc: Global, fields: &'x [Field<'a>]) -> Made<Seq<&'x Field<'a>>>
    ensures { IfOk result (λ fs. lent fs ≡ fields.now) }
{
    let mut out = Seq::with_capacity(alloc, fields.len())?;
    for field in fields {
        out.add(field)?;
    }
    Ok(out)
}

/// The fields in parentheses.
pub fn unnamed_to_vec<'x, 'a>(
    alloc: Global,
    fields: &'x Punctuated<Field<'a>>,
) -> Result<Seq<&'x Field<'a>>, AllocError>
    ensures { IfOk result (λ fs. lent fs ≡ fields.now.items) }
{
    references(alloc, fields.items.as_slice())
}

/// The fields in braces.
pub fn named_to_vec<'x, 'a>(
    alloc: Global,
    fields: &'x Punctuated<Field<'a>>,
) -> Result<Seq<&'x Field<'a>>, AllocError>
    ensures { IfOk result (λ fs. lent fs ≡ fields.now.items) }
{
    references(alloc, fields.items.as_slice())
}
