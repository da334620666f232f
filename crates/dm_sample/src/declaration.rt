//! The declaration of a sample.

ghost use Rattle.std.specs.Prelude.{◌≡◌, ◌%◌, ◌++◌, IfOk, OnOk};
ghost use Rattle.std.specs.String.{string_bytes};
ghost use Rattle.dm_sample.specs.Samples as spec;

use std::alloc::{AllocError, Global};

/// The fields of a variant by its number: none, two of a tuple, or two that are named, in turn.
fn fields(i: u32) -> &'static str
    ensures { result.now ≡ spec.fields (i % 3) }
{
    match i % 3 {
        0 => "",
        1 => "(T, u8)",
        _ => " { a: T, b: u8 }",
    }
}

/// A variant with its number in its name, and a comma.
fn variant(alloc: Global, i: u32) -> Result<String, AllocError>
    ensures { IfOk result (λ text. string_bytes text ≡ spec.variant i) }
{
    let fields = fields(i);
    format!(in alloc; " V{i}{fields},")
}

fn add_variant(alloc: Global, text: &mut String, i: u32) -> Result<(), AllocError>
    ensures { OnOk result (string_bytes text.new ≡ string_bytes text.old ++ spec.variant i) }
{
    let made = variant(alloc, i)?;
    text.push_str(made.as_str())
}

/// The declaration of an enum with `n` variants, `V0` and so on, whose fields are of its type parameter and of `u8`.
pub fn sample_text(alloc: Global, n: u32) -> Result<String, AllocError>
    ensures { IfOk result (λ text. string_bytes text ≡ spec.sample_text n) }
{
    let mut text = String::new(alloc);
    text.push_str("enum Sample<T> {")?;
    for i in 0..n {
        add_variant(alloc, &mut text, i)?;
    }
    text.push_str(" }")?;
    Ok(text)
}
