//! What a list of trees begins with, where that is a sign or a word.
#![tactic(auto)]

ghost use Rattle.std.specs.Prelude.{◌≡◌, ◌==◌, false, MatchBool, MatchOption, IfSome};
ghost use Rattle.dm_stream.specs.Cursors.{left, sound, SharesEnd};
ghost use Rattle.dm_stream.specs.Trees.{Trees};
ghost use Rattle.dm_reread.specs.Next.{Word, next, alone_next, pair_next, other};
ghost use Rattle.dm_reread.specs.Next as words;
ghost use Rattle.dm_read_places.specs.Fronts as keywords;
ghost use Rattle.dm_read_places.specs.Fronts.{sign_next, number, same_sign, is_any_sign, word_of, keyword_number, keyword_or, same_keyword, is_path_kind};
ghost use Rattle.dm_read_places.specs.declared.front.Kind.TheVariants as kinds;

use dm_read::words::is_path_word;
use dm_stream::{Cursor, Ident, Punct, Spacing};

/// One punct that stands alone, or two that are read as one: the first touches the second, and the second stands alone.
#[derive(Clone, Copy)]
pub enum Sign {
    /// `||`
    OrOr,
    /// `&&`
    AndAnd,
    /// `==`
    Equals,
    /// `!=`
    Differs,
    /// `*`
    Star,
    /// `&`
    Amp,
    /// `.`
    Dot,
    /// `?`
    Asks,
    /// `!`
    Bangs,
    /// `+`
    Plus,
    /// `<`
    Less,
    /// `#`
    Hash,
    /// `|`
    Bar,
    /// `,`
    Comma,
    /// `:`
    Colon,
    /// `;`
    Semicolon,
    /// `=`
    Assigns,
    /// `=>`
    Leads,
    /// `->`
    Arrow,
    /// `::`
    Colons,
    /// `..`
    Dots,
}

/// The keywords that the output language uses.
#[derive(Clone, Copy)]
pub enum Keyword {
    Match,
    Unsafe,
    True,
    False,
    Let,
    If,
    Ref,
    Mut,
    /// `_`
    Wild,
    Return,
    Use,
    As,
    Const,
    Type,
    Fn,
    Impl,
}

/// What an identifier is: a word of a path, a keyword that the output language uses, or another.
#[derive(Clone, Copy)]
pub enum Kind {
    Name,
    Keyword(Keyword),
    Other,
}

impl Sign {
    fn number(self) -> u8
        ensures { result ≡ number self }
    {
        match self {
            Sign::OrOr => 0,
            Sign::AndAnd => 1,
            Sign::Equals => 2,
            Sign::Differs => 3,
            Sign::Star => 4,
            Sign::Amp => 5,
            Sign::Dot => 6,
            Sign::Asks => 7,
            Sign::Bangs => 8,
            Sign::Plus => 9,
            Sign::Less => 10,
            Sign::Hash => 11,
            Sign::Bar => 12,
            Sign::Comma => 13,
            Sign::Colon => 14,
            Sign::Semicolon => 15,
            Sign::Assigns => 16,
            Sign::Leads => 17,
            Sign::Arrow => 18,
            Sign::Colons => 19,
            Sign::Dots => 20,
        }
    }

    /// Whether both are one sign.
    #[tactic(auto, using(crate::proofs::Numbers::sign_steps))]
    pub fn is(self, sign: Sign) -> bool
        ensures same { result ≡ same_sign self sign }
        ensures found { MatchBool result (self ≡ sign) ((number self == number sign) ≡ false) }
    {
        self.number() == sign.number()
    }
}

impl Keyword {
    fn number(self) -> u8
        ensures { result ≡ keyword_number self }
    {
        match self {
            Keyword::Match => 0,
            Keyword::Unsafe => 1,
            Keyword::True => 2,
            Keyword::False => 3,
            Keyword::Let => 4,
            Keyword::If => 5,
            Keyword::Ref => 6,
            Keyword::Mut => 7,
            Keyword::Wild => 8,
            Keyword::Return => 9,
            Keyword::Use => 10,
            Keyword::As => 11,
            Keyword::Const => 12,
            Keyword::Type => 13,
            Keyword::Fn => 14,
            Keyword::Impl => 15,
        }
    }

    /// Whether both are one keyword.
    #[tactic(auto, using(crate::proofs::Numbers::keyword_steps))]
    fn is(self, keyword: Keyword) -> bool
        ensures { MatchBool result (self ≡ keyword) ((keyword_number self == keyword_number keyword) ≡ false) }
    {
        self.number() == keyword.number()
    }
}

/// The sign that a punct is which stands alone.
fn alone(ch: char) -> Option<Sign>
    ensures { MatchOption result ((ts : Trees) → alone_next ch ts ≡ other) (λ s. (ts : Trees) → alone_next ch ts ≡ sign_next s ts) }
{
    if ch == '*' {
        Some(Sign::Star)
    } else if ch == '&' {
        Some(Sign::Amp)
    } else if ch == '.' {
        Some(Sign::Dot)
    } else if ch == '?' {
        Some(Sign::Asks)
    } else if ch == '!' {
        Some(Sign::Bangs)
    } else if ch == '+' {
        Some(Sign::Plus)
    } else if ch == '<' {
        Some(Sign::Less)
    } else if ch == ',' {
        Some(Sign::Comma)
    } else if ch == ':' {
        Some(Sign::Colon)
    } else if ch == ';' {
        Some(Sign::Semicolon)
    } else if ch == '=' {
        Some(Sign::Assigns)
    } else if ch == '|' {
        Some(Sign::Bar)
    } else if ch == '#' {
        Some(Sign::Hash)
    } else {
        None
    }
}

/// The sign that two puncts are.
fn pair(first: char, second: char) -> Option<Sign>
    ensures { MatchOption result ((ts : Trees) → pair_next first second ts ≡ other) (λ s. (ts : Trees) → pair_next first second ts ≡ sign_next s ts) }
{
    if first == ':' && second == ':' {
        Some(Sign::Colons)
    } else if first == '=' && second == '>' {
        Some(Sign::Leads)
    } else if first == '=' && second == '=' {
        Some(Sign::Equals)
    } else if first == '!' && second == '=' {
        Some(Sign::Differs)
    } else if first == '&' && second == '&' {
        Some(Sign::AndAnd)
    } else if first == '|' && second == '|' {
        Some(Sign::OrOr)
    } else if first == '.' && second == '.' {
        Some(Sign::Dots)
    } else if first == '-' && second == '>' {
        Some(Sign::Arrow)
    } else {
        None
    }
}

/// The sign that the second of two puncts ends.
#[tactic(auto, using(crate::proofs::Seeing::pair_steps))]
fn paired<'t, 'a>(first: char, c: Cursor<'t, 'a>) -> Option<(Sign, Cursor<'t, 'a>)>
    requires { sound c }
    ensures gives { MatchOption result (is_any_sign (words.joint_next first (left c.entry)) ≡ false) (λ r. words.joint_next first (left c.entry) ≡ sign_next r.0 (left r.1)) }
    ensures place { IfSome result (λ r. SharesEnd c.entry r.1) }
{
    let (punct, rest) = c.punct()?;
    match punct.spacing {
        Spacing::Alone => Some((pair(first, punct.ch)?, rest)),
        Spacing::Joint => None,
    }
}

/// The sign that a punct is or begins, and the place behind it.
fn signed<'t, 'a>(punct: Punct, rest: Cursor<'t, 'a>) -> Option<(Sign, Cursor<'t, 'a>)>
    requires { sound rest }
    ensures gives { MatchOption result (is_any_sign (words.punct_next punct.spacing punct.ch (left rest.entry)) ≡ false) (λ r. words.punct_next punct.spacing punct.ch (left rest.entry) ≡ sign_next r.0 (left r.1)) }
    ensures place { IfSome result (λ r. SharesEnd rest.entry r.1) }
{
    match punct.spacing {
        Spacing::Alone => Some((alone(punct.ch)?, rest)),
        Spacing::Joint => paired(punct.ch, rest),
    }
}

/// The sign that comes next, and the place behind it.
#[tactic(auto, using(crate::proofs::Seeing::sign_steps))]
pub fn first_sign<'t, 'a>(c: Cursor<'t, 'a>) -> Option<(Sign, Cursor<'t, 'a>)>
    requires { sound c }
    ensures gives { MatchOption result (is_any_sign (next (left c.entry)) ≡ false) (λ r. next (left c.entry) ≡ sign_next r.0 (left r.1)) }
    ensures place { IfSome result (λ r. SharesEnd c.entry r.1) }
{
    let (punct, rest) = c.punct()?;
    signed(*punct, rest)
}

/// The keyword that a text is, of all.
fn first_keyword(text: &str) -> Option<Keyword>
    ensures { (w : Word) → words.keyword_of keywords.first_keywords text.now w ≡ keyword_or w result }
{
    if text == "match" {
        Some(Keyword::Match)
    } else if text == "unsafe" {
        Some(Keyword::Unsafe)
    } else if text == "true" {
        Some(Keyword::True)
    } else if text == "false" {
        Some(Keyword::False)
    } else {
        second_keyword(text)
    }
}

/// The keyword that a text is, but for the first four.
fn second_keyword(text: &str) -> Option<Keyword>
    ensures { (w : Word) → words.keyword_of keywords.second_keywords text.now w ≡ keyword_or w result }
{
    if text == "let" {
        Some(Keyword::Let)
    } else if text == "if" {
        Some(Keyword::If)
    } else if text == "ref" {
        Some(Keyword::Ref)
    } else if text == "mut" {
        Some(Keyword::Mut)
    } else {
        third_keyword(text)
    }
}

/// The keyword that a text is, but for the first eight.
fn third_keyword(text: &str) -> Option<Keyword>
    ensures { (w : Word) → words.keyword_of keywords.third_keywords text.now w ≡ keyword_or w result }
{
    if text == "_" {
        Some(Keyword::Wild)
    } else if text == "return" {
        Some(Keyword::Return)
    } else if text == "use" {
        Some(Keyword::Use)
    } else if text == "as" {
        Some(Keyword::As)
    } else {
        last_keyword(text)
    }
}

/// The keyword that a text is, of the last four.
fn last_keyword(text: &str) -> Option<Keyword>
    ensures { (w : Word) → words.keyword_of keywords.last_keywords text.now w ≡ keyword_or w result }
{
    if text == "const" {
        Some(Keyword::Const)
    } else if text == "type" {
        Some(Keyword::Type)
    } else if text == "fn" {
        Some(Keyword::Fn)
    } else if text == "impl" {
        Some(Keyword::Impl)
    } else {
        None
    }
}

/// The keyword that a text is. The longest have six letters.
#[tactic(auto, using(crate::proofs::KeywordLengths::length_steps))]
fn any_keyword(text: &str) -> Option<Keyword>
    ensures { (w : Word) → words.keyword_of keywords.first_keywords text.now w ≡ keyword_or w result }
{
    if text.len() > 6 {
        return None;
    }
    first_keyword(text)
}

/// A word of a path, or another.
fn plain_kind(ident: &Ident<'_>) -> Kind
    ensures { word_of result ≡ words.path_or_other ident.now }
{
    if is_path_word(ident) {
        Kind::Name
    } else {
        Kind::Other
    }
}

/// What an identifier is.
pub fn kind_of(ident: &Ident<'_>) -> Kind
    ensures { word_of result ≡ words.kind ident.now }
{
    if ident.raw {
        return plain_kind(ident);
    }
    match any_keyword(ident.name.as_str()) {
        Some(found) => Kind::Keyword(found),
        None => plain_kind(ident),
    }
}

impl Kind {
    /// Whether it is a word of a path.
    pub fn is_name(self) -> bool
        ensures { MatchBool result (self ≡ kinds.Name) (is_path_kind self ≡ false) }
    {
        match self {
            Kind::Name => true,
            _ => false,
        }
    }

    /// Whether it is this keyword.
    #[tactic(auto, using(crate::proofs::Numbers::keyword_steps))]
    pub fn is(self, keyword: Keyword) -> bool
        ensures { MatchBool result (self ≡ kinds.Keyword keyword) (same_keyword keyword (word_of self) ≡ false) }
    {
        match self {
            Kind::Keyword(found) => found.is(keyword),
            _ => false,
        }
    }
}
