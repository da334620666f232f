//! The law of reading back.
#![tactic(auto)]

ghost use Rattle.dm_read_items.specs.Printed.{PrintedReadsBack, PrintedIsRead};

/// Implementations are read back from the text that `print_items` gives them, and no others are. The call does nothing; its clauses are the
/// law.
pub fn printed_reads_back()
    ensures back { PrintedReadsBack }
    ensures read { PrintedIsRead }
{}
