ghost use Rattle.dm_reread.specs.ReadBack.{ItemsComeBack, OneReading};

/// The laws of the output language: implementations of its grammar are read from their tokens, and no others have the same tokens. The
/// call does nothing; its clauses are the laws.
pub fn items_come_back()
    ensures back { ItemsComeBack }
    ensures one { OneReading }
{}
