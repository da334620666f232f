//! The law of levels.
#![tactic(auto)]

ghost use Rattle.dm_type_levels.specs.Marks.{ParamsAreMarked, PredicatesAreMarked, TypesAreMarked};

/// The levels of types, parameters and predicates are those that the grammar of declarations gives to their tokens. The call does nothing;
/// its clauses are the law.
pub fn levels_are_the_grammars()
    ensures types { TypesAreMarked }
    ensures params { ParamsAreMarked }
    ensures predicates { PredicatesAreMarked }
{}
