//! Names that end with a number.
#![tactic(auto, using(crate::proofs::NumberedSteps::one_more))]

ghost use Rattle.std.specs.Prelude.{◌≡◌, ◌++◌, codes, IfOk, string_bytes};
ghost use Rattle.dm_generics.specs.Numbered as spec;
ghost use Rattle.dm_generics.specs.Numerals.{numeral};

use crate::names::emitted;
use dm_stream::{Ident, Made, Seq, Text};
use std::alloc::{AllocError, Global};

fn numbered(alloc: Global, prefix: &str, n: usize) -> Made<String>
    ensures { IfOk result (λ name. string_bytes name ≡ codes "__" ++ prefix.now ++ numeral n) }
{
    format!(in alloc; "__{prefix}{n}")
}

fn numbered_var<'a>(alloc: Global, prefix: &str, n: usize) -> Made<Ident<'a>>
    ensures { IfOk result (λ i. i ≡ spec.numbered_var prefix.now n) }
{
    let name = numbered(alloc, prefix, n)?;
    Ok(emitted(Text::owned(name)))
}

/// So many names with this prefix and the numbers from 0 on: `__l_0` and `__l_1` for two with the prefix `l_`.
pub fn numbered_vars<'a>(
    alloc: Global,
    count: usize,
    prefix: &str,
) -> Result<Seq<Ident<'a>>, AllocError>
    ensures { IfOk result (λ is. is ≡ spec.numbered_vars count prefix.now) }
{
    let mut out = Seq::with_capacity(alloc, count)?;
    for n in 0..count {
        let next = numbered_var(alloc, prefix, n)?;
        out.add(next)?;
    }
    Ok(out)
}
