//! The expressions that stand in others.

/// What an expression in another is. The truth value says whether a brace continues a path there.
#[derive(Clone, Copy)]
pub enum Sort {
    /// An expression.
    Whole(bool),
    /// An operand of `*`, `&`, `==` or `!=`.
    Operand(bool),
}

/// How an expression in another is read.
#[derive(Clone, Copy)]
pub struct Wanted {
    /// A number that no list in the expression exceeds, nor how deep expressions nest there.
    pub fuel: usize,
    /// How deep expressions may still nest.
    pub room: usize,
    /// What it is.
    pub sort: Sort,
}
