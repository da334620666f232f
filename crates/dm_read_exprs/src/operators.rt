//! The rules of operators, over those of blocks.
#![tactic(auto)]

ghost use Rattle.std.specs.Prelude.{◌≡◌};

use dm_read_arguments::rules::Exprs;

/// The rules of expressions, over those of what stands in them.
#[derive(Clone, Copy)]
pub(crate) struct Operators<F> {
    pub(crate) parts: Exprs<F>,
}

impl<F: Copy> Operators<F> {
    /// The rules with other fuel.
    pub(crate) fn with(&self, fuel: usize) -> Operators<F>
        ensures { result ≡ record { parts = record { fuel = fuel; room = self.now.parts.room; expr = self.now.parts.expr } } }
    {
        Operators {
            parts: self.parts.with(fuel),
        }
    }
}
