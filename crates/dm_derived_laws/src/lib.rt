//! Derived implementations are of the output language. There is no program.
#![tactic(auto)]
