//! Comparison and operators: from a declaration to the implementation of `PartialEq`, or of an operator of `core::ops`.
//!
//! Each trait prints its implementation, and what it answers is read back from that text.
#![tactic(auto)]

pub mod expand;
mod families;
pub mod partial_eq;
mod reading;

pub use dm_partial_eq::predicates_cover_calls;

/// `Add` and its like.
pub mod add {
    pub use crate::families::add as expand;
}

/// `AddAssign` and its like.
pub mod add_assign {
    pub use crate::families::add_assign as expand;
}

/// `Mul` and its like.
pub mod mul {
    pub use crate::families::mul as expand;
}

/// `MulAssign` and its like.
pub mod mul_assign {
    pub use crate::families::mul_assign as expand;
}

/// `Not` and `Neg`.
pub mod not_like {
    pub use crate::families::not_like as expand;
}
