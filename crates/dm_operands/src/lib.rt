//! The operands of emitted methods: the variants of a declaration, their fields, and the names that bind these.
#![tactic(auto)]

pub mod cases;
pub mod places;
pub mod sides;
