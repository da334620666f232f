//! Laws of the trees of texts, by the table of tokens in docs/FORMATS.md (Rust Reference, "Tokens"). Each is a call whose clauses are
//! its statement.

ghost use Rattle.dm_lexer.specs.Values.{StringsHaveValues};
ghost use Rattle.dm_lexer.specs.Written.{LayoutLexesBack, LinesLexBack, OnlyWritableLexBack, ReadIsWritable, ShallowIsRead, ShallowIsReadWithin, TreesAreOne};

/// The law of strings: each Str and each RawStr among the trees of a text has a value, as `str_value` gives it. The call does
/// nothing; its clause is the law.
pub fn strings_have_values()
    ensures { StringsHaveValues }
{}

/// The laws of writable trees: the trees of a text are writable; and the layout of trees is lexed to them again, ranges
/// aside, exactly where they are. The call does nothing; its clauses are the laws.
pub fn layout_lexes_back()
    ensures read { ReadIsWritable }
    ensures back { LayoutLexesBack }
    ensures only { OnlyWritableLexBack }
{}

/// The laws of lines: the layouts of several lists of writable trees, each ended by LF, are lexed to all these trees, ranges
/// aside; such a text has no others; and it is refused for want of memory alone, where none of them is inside more groups than
/// are read, by `lex` (`shallow`) and by `lex_within` (`within`). The call does nothing; its clauses are the laws.
pub fn lines_lex_back()
    ensures back { LinesLexBack }
    ensures one { TreesAreOne }
    ensures shallow { ShallowIsRead }
    ensures within { ShallowIsReadWithin }
{}
