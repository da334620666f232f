#![tactic(auto, using(dm_output::proofs::View::view_steps))]

ghost use Rattle.std.specs.Prelude.{◌≡◌, [], map, IfOk};
ghost use Rattle.dm_ast.specs.Tree.{path_view};
ghost use Rattle.dm_ast.specs.Declarations.{field_view, fields_view};
ghost use Rattle.dm_output.specs.Output.{bind};
ghost use Rattle.dm_output.specs.Views.{pattern_view, named_view};
ghost use Rattle.dm_output.specs.declared.pattern.Binding.TheVariants.{Plain};
ghost use Rattle.dm_generics.specs.Words as words;
ghost use Rattle.dm_operands.specs.Sides as sides;
ghost use Rattle.dm_arm_patterns.specs.ArmPatterns as spec;

use dm_ast::{Field, Fields, Path};
use dm_generics::names::emitted;
use dm_operands::sides::field_ident;
use dm_output::{Binding, NamedPattern, Pattern};
use dm_stream::{Ident, Made, Seq, Text};
use std::alloc::Global;

fn numbered<'a>(alloc: Global, prefix: &str, n: usize) -> Made<Ident<'a>>
    ensures { IfOk result (λ i. i ≡ words.word (spec.numbered prefix.now n)) }
{
    let name = format!(in alloc; "{prefix}{n}")?;
    Ok(emitted(Text::owned(name)))
}

fn bound<'a>(alloc: Global, prefix: &str, n: usize) -> Made<Pattern<'a>>
    ensures { IfOk result (λ p. pattern_view p ≡ bind Plain (words.word (spec.numbered prefix.now n))) }
{
    Ok(Pattern::Bind(Binding::Plain, numbered(alloc, prefix, n)?))
}

fn is_skipped(skipped: &[usize], n: usize) -> bool
    ensures { result ≡ spec.is_skipped skipped.now n }
{
    skipped.contains(&n)
}

fn binding<'a>(alloc: Global, prefix: &str, n: usize, skip: bool) -> Made<Pattern<'a>>
    ensures { IfOk result (λ p. pattern_view p ≡ sides.binding skip (spec.numbered prefix.now n)) }
{
    if skip {
        return Ok(Pattern::Wild);
    }
    bound(alloc, prefix, n)
}

fn bindings<'a>(
    alloc: Global,
    fields: &[Field<'_>],
    prefix: &str,
    skipped: &[usize],
) -> Made<Seq<Pattern<'a>>>
    ensures { IfOk result (λ ps. map pattern_view ps ≡ spec.bindings prefix.now skipped.now 0 (map field_view fields.now)) }
{
    let mut out = Seq::with_capacity(alloc, fields.len())?;
    for (n, _) in fields.iter().enumerate() {
        let pattern = binding(alloc, prefix, n, is_skipped(skipped, n))?;
        out.add(pattern)?;
    }
    Ok(out)
}

fn named_binding<'a>(
    alloc: Global,
    field: &Field<'a>,
    prefix: &str,
    n: usize,
) -> Made<NamedPattern<'a>>
    ensures { IfOk result (λ p. named_view p ≡ (sides.field_ident field.now.ident, bind Plain (words.word (spec.numbered prefix.now n)))) }
{
    Ok(NamedPattern {
        name: field_ident(alloc, field)?,
        pattern: bound(alloc, prefix, n)?,
    })
}

fn named_bindings<'a>(
    alloc: Global,
    fields: &[Field<'a>],
    prefix: &str,
    skipped: &[usize],
) -> Made<Seq<NamedPattern<'a>>>
    ensures { IfOk result (λ ps. map named_view ps ≡ spec.named_bindings prefix.now skipped.now 0 (map field_view fields.now)) }
{
    let mut out = Seq::with_capacity(alloc, fields.len())?;
    for (n, field) in fields.iter().enumerate() {
        if !is_skipped(skipped, n) {
            let pattern = named_binding(alloc, field, prefix, n)?;
            out.add(pattern)?;
        }
    }
    Ok(out)
}

/// The pattern of a struct or a variant with this path and these fields, whose fields are bound by the prefix and their number, from 0,
/// but for those with the numbers `skipped`. Such a field has `_` between parentheses and isn't named in braces, where `..` stands last
/// as soon as there is a number in `skipped`. Each field in braces is expected to have a name.
pub fn non_exhaustive_arm_pattern<'a>(
    alloc: Global,
    path: Path<'a>,
    fields: &Fields<'a>,
    prefix: &str,
    skipped: &[usize],
) -> Made<Pattern<'a>>
    ensures { IfOk result (λ p. pattern_view p ≡ spec.arm_pattern prefix.now skipped.now (path_view path.entry) (fields_view fields.now)) }
{
    match fields {
        Fields::Named(all) => {
            let bound = named_bindings(alloc, all.as_slice(), prefix, skipped)?;
            Ok(Pattern::Named(path, bound, !skipped.is_empty()))
        }
        Fields::Unnamed(all) => Ok(Pattern::Tuple(
            path,
            bindings(alloc, all.as_slice(), prefix, skipped)?,
        )),
        Fields::Unit => Ok(Pattern::Path(path)),
    }
}

/// The pattern of a struct or a variant with this path and these fields, each of which is bound by the prefix and its number, from 0.
/// Each field in braces is expected to have a name.
pub fn exhaustive_arm_pattern<'a>(
    alloc: Global,
    path: Path<'a>,
    fields: &Fields<'a>,
    prefix: &str,
) -> Made<Pattern<'a>>
    ensures { IfOk result (λ p. pattern_view p ≡ spec.arm_pattern prefix.now [] (path_view path.entry) (fields_view fields.now)) }
{
    non_exhaustive_arm_pattern(alloc, path, fields, prefix, &[])
}
