//! The readers of types and of declarations, as plain functions, read just what their grammar says. There is no program.
#![tactic(auto)]
