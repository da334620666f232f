//! What implementations take over from a declaration is of the output language. There is no program.
#![tactic(auto)]
