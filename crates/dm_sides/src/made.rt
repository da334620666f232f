//! Trees that are made to be printed alone. What they are is open where they are held, so nothing has to be known of how they are dropped.
//! How each is dropped is proved here, once: who prints hands what it made to one of these calls, and holds no tree.
#![tactic(auto, using(crate::proofs::Patterns::pattern_steps))]

ghost use Rattle.std.specs.Prelude.{◌≡◌, map, OnOk, IsOkAnd};
ghost use Rattle.dm_stream.specs.Trees.{Trees};
ghost use Rattle.dm_output.specs.Tokens as tokens;
ghost use Rattle.dm_print_types.specs.Prelude.{ty_view, param_view, type_trees, lay};

use dm_ast::{GenericParam, Ty};
use dm_layout::{Layout, Printed};
use dm_print::item::params;
use dm_print_types::path::ty;
use dm_stream::Seq;
use std::alloc::AllocError;

/// What is laid out by its tokens.
trait Prints: Sized + Drop {
    ghost trees: { Self → Trees };

    fn print(&self, out: &mut Layout) -> Printed
        ensures { OnOk result (out.new ≡ lay out.old (trees self.now)) };
}

/// Adds what was made.
fn print<T: Prints>(made: Result<T, AllocError>, out: &mut Layout) -> Printed
    ensures { OnOk result (IsOkAnd made (λ t. out.new ≡ lay out.old (T.trees t))) }
{
    match made {
        Ok(tree) => tree.print(out),
        Err(error) => Err(error),
    }
}

impl<'a> Prints for Ty<'a> {
    ghost trees = { λ t. type_trees (ty_view t) };

    fn print(&self, out: &mut Layout) -> Printed {
        ty(self, out)
    }
}

/// The parameters of an implementation, in `<..>` where there are some.
impl<'a> Prints for Seq<GenericParam<'a>> {
    ghost trees = { λ all. tokens.params_trees (map param_view all) };

    fn print(&self, out: &mut Layout) -> Printed {
        params(self.as_slice(), out)
    }
}

/// Adds a type that was made.
pub fn made_type(made: Result<Ty<'_>, AllocError>, out: &mut Layout) -> Printed
    ensures { OnOk result (IsOkAnd made.entry (λ t. out.new ≡ lay out.old (type_trees (ty_view t)))) }
{
    print(made, out)
}

/// Adds the parameters of an implementation that were made, in `<..>` where there are some.
pub fn made_params(made: Result<Seq<GenericParam<'_>>, AllocError>, out: &mut Layout) -> Printed
    ensures { OnOk result (IsOkAnd made.entry (λ all. out.new ≡ lay out.old (tokens.params_trees (map param_view all)))) }
{
    print(made, out)
}
