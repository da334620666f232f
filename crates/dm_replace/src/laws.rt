ghost use Rattle.dm_replace.specs.Laws.{SpelledTwiceIsOnce, TwiceIsOnce};

/// The laws of `replace_self_type`: replacing twice is replacing once where no parameter is spelled `Self`, as in each declaration that
/// trees spell. The call does nothing; its clauses are the laws.
pub fn replaced_once()
    ensures other { TwiceIsOnce }
    ensures spelled { SpelledTwiceIsOnce }
{}
