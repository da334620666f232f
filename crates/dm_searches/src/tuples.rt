//! Whether a listed type fits so many fields.
#![tactic(auto, using(crate::proofs::Counts::count_steps))]

ghost use Rattle.std.specs.Prelude.{◌≡◌};
ghost use Rattle.dm_ast.specs.Tree.{node_view, ty_view};
ghost use Rattle.dm_searches.specs.Tuples as spec;

use dm_ast::{Ty, TyNode};
use dm_stream::{Kind, Refusal};

/// The number of a tuple's parts.
fn node_length(node: &TyNode<'_>) -> Option<usize>
    ensures { result ≡ spec.node_length (node_view node.now) }
{
    match node {
        TyNode::Tuple(all) => Some(all.items.len()),
        TyNode::Paren(_)
        | TyNode::Slice(_)
        | TyNode::Array(_, _)
        | TyNode::Reference(_, _, _)
        | TyNode::Pointer(_, _)
        | TyNode::BareFn(_)
        | TyNode::TraitObject(_)
        | TyNode::ImplTrait(_)
        | TyNode::Infer
        | TyNode::Never
        | TyNode::Path(_, _)
        | TyNode::Macro(_, _, _) => None,
    }
}

fn is_misfit(count: usize, length: Option<usize>) -> bool
    ensures { result ≡ spec.is_misfit count length }
{
    match length {
        None => 1 < count,
        Some(length) => count == 1 || (1 < count && length != count),
    }
}

/// Checks that a listed type fits so many fields. Several fields take a tuple of as many parts, and one field takes a type that is no
/// tuple; `(T)` is none. Without fields every type fits.
///
/// The refusal is `Kind::TupleLength` at the type, in bytes of the text that it was read from.
pub fn validate_type(count: usize, ty: &Ty<'_>) -> Result<(), Refusal>
    ensures { result ≡ spec.validated count (ty_view ty.now) }
{
    if is_misfit(count, node_length(&ty.node)) {
        return Err(Refusal {
            kind: Kind::TupleLength,
            span: ty.span,
        });
    }
    Ok(())
}
