ghost use Rattle.dm_operators.specs.Laws.{AreGiven, AreRefused, AreCovered};

/// The laws of the operators. A declaration that isn't refused is given an implementation of the operator: its head, exactly the
/// predicates that it needs, and a method that gives what the operator means for every value. Those that are refused are the ones that
/// aren't valid for it. The predicates cover each operation on fields. The call does nothing; its clauses are the laws.
pub fn operators_are_given()
    ensures given { AreGiven }
    ensures refused { AreRefused }
    ensures covered { AreCovered }
{}
