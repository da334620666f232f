//! Which rule of types reads what comes next.

/// The rules of types.
#[derive(Clone, Copy)]
pub enum NodeKind {
    /// A name, `!` and a group.
    Call,
    /// `(..)`.
    Round,
    /// `[..]`.
    Square,
    /// `&`.
    Reference,
    /// `*`.
    Pointer,
    /// `fn`, or what may stand before it.
    Function,
    /// `dyn`.
    Object,
    /// `impl`.
    Implied,
    /// `_`.
    Infer,
    /// `!`.
    Never,
    /// `<`.
    Qualified,
    /// Anything else.
    Path,
}

/// What is read where a type may stand.
#[derive(Clone, Copy)]
pub enum Mode {
    /// A type. A `dyn` or an `impl` has all bounds that follow.
    Whole,
    /// A type behind `&`, `*` or `->`. A `dyn` or an `impl` has one bound.
    Single,
    /// A path alone.
    PathOnly,
}
