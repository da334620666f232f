//! That the implementations which traits emit are of the output language, can be written and are shallow. There is no program.
#![tactic(auto)]
