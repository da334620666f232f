ghost use Rattle.std.specs.Prelude.{◌≡◌, Some};
ghost use Rattle.dm_stream.specs.declared.error.Error.TheVariants.{NoMemory};
ghost use Rattle.dm_stream.specs.Messages.{kind_name, message_of, refusal_text, error_text};

use crate::tokens::Span;
use std::alloc::AllocError;
use std::fmt;

/// Why a text or a declaration is refused: by the lexer, the parser, the check of names, or a trait. The ranges are in bytes of
/// the declaration's text. The rules of the traits are derive_more's.
#[derive(Clone, Copy, Debug, PartialEq, Eq)]
pub enum Kind {
    /// The choice of a trait: the name is that of no trait that is derived. The range is 0..0.
    UnknownTrait,
    /// Lexer: the text is not made of tokens (Rust Reference, Lexical structure). The range tells where it stops to be.
    Lex,
    /// Lexer: a token stands inside more than 128 groups. Parser: a token stands at a level over 128, which is the number of
    /// groups and `<..>` around the token, of types `&`, `*`, `fn`, `dyn` and `impl` in whose part behind that word or punct it
    /// stands, and of parameter lists of paths behind whose `->` it stands. The range is that of the first such token.
    TooDeep,
    /// Parser: the tokens are those of no declaration. The range is that of the token that does not fit, or empty where the
    /// tokens end.
    Syntax,
    /// Check of names: a type is a macro call. The range is that of the type. Traits that are still to come: an attribute or
    /// a name that this port leaves out, with its range.
    Unsupported,
    /// Check of names: a name is declared twice. The range is that of the second.
    DuplicateName,
    /// Check of names: a declared name is one that emitted code uses. The range is that of the name.
    ReservedName,
    /// Traits: the trait is not derived for this kind of declaration. The range is that of the word `struct`, `enum` or
    /// `union`, or of a variant.
    WrongShape,
    /// Traits (operators, `Not`, `Neg`): every field is skipped. The range is that of the word `struct`, `enum` or `union`, or
    /// of a variant.
    AllSkipped,
    /// Traits: an attribute of the trait is not spelled as one. The range is that of the attribute.
    AttrSyntax,
    /// Traits (operators, `Not`, `Neg`): an attribute stands where it says nothing. The range is that of the attribute.
    AttrNotAllowed,
    /// Traits that are still to come: an attribute is spelled as in earlier versions of derive_more. The range is that of the
    /// attribute.
    LegacySyntax,
    /// Traits: an attribute is given twice. The range is that of the second.
    AttrRepeated,
    /// Traits that are still to come: two attributes cannot stand together. The range is that of the later.
    AttrMixed,
    /// Traits that are still to come: one field is needed, and there are none or several. The range is that of the word
    /// `struct`, `enum` or `union`, or of a variant.
    FieldCount,
    /// Traits that are still to come: a type that an attribute lists has another number of parts than there are fields. The
    /// range is that of the listed type.
    TupleLength,
    /// Traits that are still to come: two fields would have the same role. The range is that of the second.
    FieldConflict,
    /// Traits that are still to come: there is no format for a declaration that needs one, or one that no value can use. The
    /// range is that of the word `struct`, `enum` or `union`, of a variant, or of the format's attribute.
    MissingFormat,
    /// Traits that are still to come: an attribute is missing that the trait needs. The range is that of the declared name.
    MissingAttr,
}

/// A refusal, and the range of bytes that it is about.
#[derive(Clone, Copy, Debug, PartialEq, Eq)]
pub struct Refusal {
    pub kind: Kind,
    pub span: Span,
}

/// Why there is no answer: there was no memory for one, or the text, a declaration or an attribute is refused.
#[derive(Clone, Copy, Debug, PartialEq, Eq)]
pub enum Error {
    NoMemory,
    Refused(Refusal),
}

/// What reading answers: what was read, or why it was not.
pub type Read<T> = Result<T, Error>;

/// What making a tree, a list or a text answers: it, or an error where there was no memory.
pub type Made<T> = Result<T, AllocError>;

impl From<AllocError> for Error {
    ghost from_gives = { λ _ e. e ≡ NoMemory };

    fn from(_e: AllocError) -> Error {
        Error::NoMemory
    }
}

impl Kind {
    /// The variant's name, as it is declared.
    pub fn name(self) -> &'static str
        ensures { result.now ≡ kind_name self }
    {
        match self {
            Kind::UnknownTrait => "UnknownTrait",
            Kind::Lex => "Lex",
            Kind::TooDeep => "TooDeep",
            Kind::Syntax => "Syntax",
            Kind::Unsupported => "Unsupported",
            Kind::DuplicateName => "DuplicateName",
            Kind::ReservedName => "ReservedName",
            Kind::WrongShape => "WrongShape",
            Kind::AllSkipped => "AllSkipped",
            Kind::AttrSyntax => "AttrSyntax",
            Kind::AttrNotAllowed => "AttrNotAllowed",
            Kind::LegacySyntax => "LegacySyntax",
            Kind::AttrRepeated => "AttrRepeated",
            Kind::AttrMixed => "AttrMixed",
            Kind::FieldCount => "FieldCount",
            Kind::TupleLength => "TupleLength",
            Kind::FieldConflict => "FieldConflict",
            Kind::MissingFormat => "MissingFormat",
            Kind::MissingAttr => "MissingAttr",
        }
    }
}

/// The name of the kind, the range, and the message, as `Syntax 13..15: not one struct, enum or union declaration`.
impl fmt::Display for Refusal {
    ghost output = { λ r. Some (refusal_text r) };

    fn fmt<W: fmt::Write>(&self, f: &mut fmt::Formatter<W>) -> fmt::Result {
        let kind = self.kind.name();
        let start = self.span.start;
        let end = self.span.end;
        let message = self.message();
        write!(f, "{kind} {start}..{end}: {message}")
    }
}

/// The refusal, or `out of memory`.
impl fmt::Display for Error {
    ghost output = { λ e. Some (error_text e) };

    fn fmt<W: fmt::Write>(&self, f: &mut fmt::Formatter<W>) -> fmt::Result {
        match self {
            Error::NoMemory => write!(f, "out of memory"),
            Error::Refused(refusal) => write!(f, "{refusal}"),
        }
    }
}

impl Refusal {
    /// What is wrong, as a few words of English without the place.
    pub fn message(&self) -> &'static str
        ensures { result.now ≡ message_of self.now.kind }
    {
        match self.kind {
            Kind::UnknownTrait => "no derive of this name",
            Kind::Lex => "text is not made of tokens",
            Kind::TooDeep => "nested deeper than 128",
            Kind::Syntax => "not one struct, enum or union declaration",
            Kind::Unsupported => "left out of this port",
            Kind::DuplicateName => "name is declared twice",
            Kind::ReservedName => "name is reserved",
            Kind::WrongShape => "trait cannot be derived for this shape",
            Kind::AllSkipped => "no field is left unskipped",
            Kind::AttrSyntax => "attribute does not read here",
            Kind::AttrNotAllowed => "attribute is not allowed here",
            Kind::LegacySyntax => "attribute is in a legacy spelling",
            Kind::AttrRepeated => "attribute may be given once",
            Kind::AttrMixed => "attributes exclude each other",
            Kind::FieldCount => "exactly one field is needed",
            Kind::TupleLength => "listed type does not fit the fields",
            Kind::FieldConflict => "two fields claim the same role",
            Kind::MissingFormat => "a format is needed or cannot be used",
            Kind::MissingAttr => "an attribute is needed",
        }
    }
}
