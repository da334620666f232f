//! That the levels of implementations look at no range. There is no program.
#![tactic(auto)]
