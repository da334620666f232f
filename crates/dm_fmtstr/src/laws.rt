ghost use Rattle.dm_fmtstr.specs.Grammar.{NoTwoReadings};

/// The law of format strings: no text has two lists of placeholders. The call does nothing; its clause is the law.
pub fn one_reading()
    ensures { NoTwoReadings }
{}
