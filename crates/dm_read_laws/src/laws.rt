ghost use Rattle.dm_read_laws.specs.Reading.{ReadingAnswers};

/// The law of the plain reader: for any trees it gives the only implementations of the grammar with their tokens, ranges aside, and where it
/// gives nothing there are none. The call does nothing; its clause is the law.
pub fn reading_answers()
    ensures { ReadingAnswers }
{}
