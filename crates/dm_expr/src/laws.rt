ghost use Rattle.dm_expr.specs.Lists.{NothingIsLost};

/// The law of expression lists: the runs of a list and its commas are the trees that were read, in order, and no other. The
/// call does nothing; its clause is the law.
pub fn nothing_is_lost()
    ensures { NothingIsLost }
{}
