//! The text of tokens.
#![tactic(auto, using(crate::proofs::Layouts::layout_steps))]

ghost use Rattle.std.specs.Prelude.{◌≡◌, ◌++◌, false, cond, IfOk, IsTrue, OnOk, string_bytes};
ghost use Rattle.dm_layout.specs.Fixed as fixed;
ghost use Rattle.dm_layout.specs.Fixed.{is_fixed, entries_of};
ghost use Rattle.dm_stream.specs.declared.tokens.Token.TheVariants as t;
ghost use Rattle.dm_stream.specs.declared.tokens.Entry.TheVariants as entry;
ghost use Rattle.dm_stream.specs.Trees.{flatten};
ghost use Rattle.dm_stream.specs.Cursors.{trees_in, sound_piece};
ghost use Rattle.dm_stream.specs.Layout.{laid, laid_one, laid_start, layout, line_ended, nowhere, punct_token, spaced, word_token};

use dm_stream::{Delim, Entry, Ident, Lifetime, Literal, Made, Piece, Spacing, Token, TokenStream};
use std::alloc::{AllocError, Global};
use std::marker::Model;

/// What adding to a text answers: an error where there was no memory.
pub type Printed = Result<(), AllocError>;

/// A text that tokens are added to, with a space between two of them where the layout has one.
///
/// A call that has no memory may have added a part of what it was to add. Nothing is promised of the text then.
#[derive(Debug, Drop)]
pub struct Layout {
    text: String,
    glued: bool,
}

impl Model for Layout {
    ghost use Rattle.std.specs.String.{string_bytes};
    ghost use Rattle.dm_stream.specs.Layout.{Laid};

    ghost Value = { Laid };

    ghost view = { λ l. record { text = string_bytes l.text; glued = l.glued } };
}

impl Layout {
    /// The empty text. It keeps the allocator for what is added, and its first token follows with no space.
    pub fn new(alloc: Global) -> Layout
        ensures { result ≡ laid_start }
    {
        Layout {
            text: String::new(alloc),
            glued: true,
        }
    }

    /// The allocator that the text was made with.
    pub fn allocator(&self) -> Global {
        *self.text.allocator()
    }

    /// Adds a token as it is spelled.
    pub fn token(&mut self, token: &Token<'_>) -> Result<(), AllocError>
        ensures { OnOk result (self.new ≡ laid_one self.old (entry.Token token.now)) }
    {
        match token {
            Token::Ident(ident) => self.ident(ident),
            Token::Lifetime(lifetime) => self.lifetime(lifetime),
            Token::Punct(punct) => self.punct(punct.ch, punct.spacing),
            Token::Literal(literal) => self.literal(literal),
        }
    }

    /// Adds an identifier, a raw one with its `r#`.
    pub fn ident(&mut self, ident: &Ident<'_>) -> Result<(), AllocError>
        ensures { OnOk result (self.new ≡ laid_one self.old (entry.Token (t.Ident ident.now))) }
    {
        if ident.raw {
            self.append("r#", true)?;
        }
        self.append(ident.name.as_str(), false)
    }

    /// Adds an identifier that isn't raw.
    pub fn word(&mut self, name: &str) -> Result<(), AllocError>
        ensures { OnOk result (self.new ≡ laid_one self.old (entry.Token (word_token name.now))) }
    {
        self.append(name, false)
    }

    /// Adds one character of punctuation. What follows a joint one touches it.
    pub fn punct(&mut self, ch: char, spacing: Spacing) -> Result<(), AllocError>
        ensures { OnOk result (self.new ≡ laid_one self.old (entry.Token (punct_token ch spacing))) }
    {
        self.space()?;
        self.text.push(ch)?;
        self.glued = spacing == Spacing::Joint;
        Ok(())
    }

    /// Adds a literal as it is spelled.
    pub fn literal(&mut self, literal: &Literal<'_>) -> Result<(), AllocError>
        ensures { OnOk result (self.new ≡ laid_one self.old (entry.Token (t.Literal literal.now))) }
    {
        self.append(literal.text.as_str(), false)
    }

    /// Adds a lifetime with its `'`.
    pub fn lifetime(&mut self, lifetime: &Lifetime<'_>) -> Result<(), AllocError>
        ensures { OnOk result (self.new ≡ laid_one self.old (entry.Token (t.Lifetime lifetime.now))) }
    {
        self.append("'", true)?;
        self.append(lifetime.name.as_str(), false)
    }

    /// Adds an opening delimiter. What follows `(` or `[` touches it.
    pub fn open(&mut self, delim: Delim) -> Result<(), AllocError>
        ensures { OnOk result (self.new ≡ laid_one self.old (entry.Open delim nowhere 0)) }
    {
        match delim {
            Delim::Paren => self.append("(", true),
            Delim::Bracket => self.append("[", true),
            Delim::Brace => self.append("{", false),
        }
    }

    /// Adds a closing delimiter. It touches what is in front of it, but `}` has a space there.
    pub fn close(&mut self, delim: Delim) -> Result<(), AllocError>
        ensures { OnOk result (self.new ≡ laid_one self.old (entry.Close delim nowhere)) }
    {
        match delim {
            Delim::Paren => self.end(")"),
            Delim::Bracket => self.end("]"),
            Delim::Brace => self.end(" }"),
        }
    }

    /// Adds a text of words, puncts and delimiters, which is the layout of these tokens as it stands: one space between
    /// two tokens, none inside `(..)` and `[..]`, none behind a joint punct. It may open a group that a later text closes.
    pub fn fixed(&mut self, text: &str) -> Result<(), AllocError>
        requires { IsTrue (is_fixed text.now) }
        ensures { OnOk result (self.new ≡ laid self.old (entries_of text.now)) }
    {
        let bytes = text.as_bytes();
        self.verbatim(text, begins_tight(bytes), ends_open(bytes))
    }

    /// Adds the tokens of a list, with the delimiters of its groups.
    pub fn stream(&mut self, stream: &TokenStream<'_>) -> Result<(), AllocError>
        ensures { OnOk result (self.new ≡ laid self.old (flatten stream.now.trees)) }
    {
        self.entries(stream.entries())
    }

    /// Adds the tokens of a run, with the delimiters of its groups.
    pub fn piece(&mut self, piece: Piece<'_, '_>) -> Result<(), AllocError>
        requires { sound_piece piece }
        ensures { OnOk result (self.new ≡ laid self.old (flatten (trees_in piece.entry))) }
    {
        self.entries(piece.entries())
    }

    /// Ends the line with LF. The next token follows with no space.
    pub fn line_end(&mut self) -> Result<(), AllocError>
        ensures { OnOk result (self.new ≡ line_ended self.old) }
    {
        self.text.push('\n')?;
        self.glued = true;
        Ok(())
    }

    /// The text that was laid out.
    pub fn into_string(self) -> String
        ensures { string_bytes result ≡ self.text }
    {
        let Layout { text, glued: _ } = self;
        text
    }

    fn entries(&mut self, all: &[Entry<'_>]) -> Made<()>
        ensures { OnOk result (self.new ≡ laid self.old all.now) }
    {
        for entry in all {
            self.entry(entry)?;
        }
        Ok(())
    }

    fn entry(&mut self, entry: &Entry<'_>) -> Made<()>
        ensures { OnOk result (self.new ≡ laid_one self.old entry.now) }
    {
        match entry {
            Entry::Token(token) => self.token(token),
            Entry::Open(delim, _, _) => self.open(*delim),
            Entry::Close(delim, _) => self.close(*delim),
        }
    }

    /// Adds a space where the next token follows with one.
    fn space(&mut self) -> Made<()>
        ensures { OnOk result (self.new ≡ record self.old { text = spaced self.old }) }
    {
        if self.glued {
            return Ok(());
        }
        self.text.push(' ')
    }

    /// Adds a token's text, or the front of one.
    fn append(&mut self, text: &str, glued: bool) -> Result<(), AllocError>
        ensures { OnOk result (self.new ≡ record { text = spaced self.old ++ text.now; glued = glued }) }
    {
        self.space()?;
        self.text.push_str(text)?;
        self.glued = glued;
        Ok(())
    }

    /// Adds a text, with a space in front where it isn't tight.
    fn verbatim(&mut self, text: &str, tight: bool, glued: bool) -> Made<()>
        ensures { OnOk result (self.new ≡ record { text = cond tight self.old.text (spaced self.old) ++ text.now; glued = glued }) }
    {
        if !tight {
            self.space()?;
        }
        self.text.push_str(text)?;
        self.glued = glued;
        Ok(())
    }

    /// Adds the end of a group.
    fn end(&mut self, text: &str) -> Made<()>
        ensures { OnOk result (self.new ≡ record { text = self.old.text ++ text.now; glued = false }) }
    {
        self.text.push_str(text)?;
        self.glued = false;
        Ok(())
    }
}

/// Whether nothing stands between the text and what is in front.
fn begins_tight(text: &[u8]) -> bool
    ensures { result ≡ fixed.begins_tight text.now }
{
    match text.first() {
        None => false,
        Some(c) => *c == b')' || *c == b']' || *c == b' ',
    }
}

/// Whether what follows touches the text.
fn ends_open(text: &[u8]) -> bool
    ensures { result ≡ fixed.ends_open text.now }
{
    match text.last() {
        None => false,
        Some(c) => *c == b'(' || *c == b'[',
    }
}

/// The text of a list of trees: the tokens as they are spelled, with the spaces between them.
pub fn print(alloc: Global, stream: &TokenStream<'_>) -> Result<String, AllocError>
    ensures { IfOk result (λ text. string_bytes text ≡ layout stream.now.trees) }
{
    let mut text = Layout::new(alloc);
    text.stream(stream)?;
    Ok(text.into_string())
}

/// The text of a run of trees.
pub fn print_piece(alloc: Global, piece: Piece<'_, '_>) -> Result<String, AllocError>
    requires { sound_piece piece }
    ensures { IfOk result (λ text. string_bytes text ≡ layout (trees_in piece.entry)) }
{
    let mut text = Layout::new(alloc);
    text.piece(piece)?;
    Ok(text.into_string())
}
