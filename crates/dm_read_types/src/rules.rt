//! The rules of types, over those of paths and bounds.
#![tactic(auto)]

use dm_read_paths::grammar::Grammar;

/// The rules of types.
#[derive(Clone, Copy)]
pub struct Types<F> {
    /// The rules of the paths and bounds in them, and of the types of the next level.
    pub grammar: Grammar<F>,
}
