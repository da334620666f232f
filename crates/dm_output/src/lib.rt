//! The output language: implementations as trees, and what their methods give.
//!
//! Patterns and expressions drop themselves, so elsewhere none is taken apart by a pattern: parts are read by reference and copied.
#![tactic(auto)]

mod expr;
mod item;
mod pattern;

pub use expr::{Arm, ArmBody, Block, Expr, FmtArg, FmtArgs, Member, NamedExpr, PathExpr, Stmt};
pub use item::{Assoc, Item, ItemAttr, Method, MethodParam, Receiver};
pub use pattern::{Binding, NamedPattern, Pattern};
