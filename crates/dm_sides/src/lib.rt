//! What implementations have in common, as text: the operands of their methods, for which no trees are made, and the parts of their heads,
//! whose trees are made and dropped here alone.
#![tactic(auto)]

pub mod heads;
mod made;
pub mod params;
pub mod pattern;
