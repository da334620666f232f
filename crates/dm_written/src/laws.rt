//! The law of what a text can have.
#![tactic(auto)]

ghost use Rattle.dm_written.specs.Fitting.{ItemsFit};

/// Implementations fit in a text where their names, literals, types and opaque parts do. The call does nothing; its clause is the law.
pub fn implementations_fit()
    ensures { ItemsFit }
{}
