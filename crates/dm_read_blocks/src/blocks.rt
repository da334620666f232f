//! The rules of blocks, over those of the expressions in them.
#![tactic(auto)]

ghost use Rattle.std.specs.Prelude.{◌≡◌};

use dm_read_arguments::rules::Exprs;

/// The rules of arms and blocks.
#[derive(Clone, Copy)]
pub struct Blocks<F> {
    /// Those of the expressions in them.
    pub parts: Exprs<F>,
}

impl<F: Copy> Blocks<F> {
    /// The rules with other fuel.
    pub(crate) fn with(&self, fuel: usize) -> Blocks<F>
        ensures { result ≡ record { parts = record { fuel = fuel; room = self.now.parts.room; expr = self.now.parts.expr } } }
    {
        Blocks {
            parts: self.parts.with(fuel),
        }
    }
}
