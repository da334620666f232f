ghost use Rattle.dm_printed.specs.Derived.{AnswerIsOne, DeclarationIsOne, TextIsOne};

/// The laws of answers: a text is that of one declaration at most; the implementations of a declaration have one text; so a trait and
/// a text have one answer. The call does nothing; its clauses are the laws.
pub fn answers_once()
    ensures declaration { DeclarationIsOne }
    ensures text { TextIsOne }
    ensures answer { AnswerIsOne }
{}
