ghost use Rattle.std.specs.Prelude.{◌≡◌, nat_eq, length, IsTrue, ◌↔◌, IfOk};
ghost use Rattle.std.specs.String.{string_bytes};
ghost use Rattle.std.proofs.Common.{rules};
ghost use Rattle.std.specs.Cmp;
ghost use Rattle.std.specs.Cmp.Lexicographic.{pointwise, nat_list_eq_equiv};
ghost use Rattle.std.specs.Cmp.Rules.{hashing};
ghost use Rattle.std.specs.Hash as fed;

use crate::error::Made;
use arrayvec::ArrayString;
use std::alloc::{AllocError, Global};
use std::hash::{Hash, Hasher};
use std::marker::Model;

/// How many bytes a text may have that is held in place, without memory of its own. Names in emitted code are seldom longer.
const SHORT: usize = 16;

/// A text that is borrowed or owned, which contracts see as its bytes. Texts are equal where their characters are.
#[derive(Debug, Drop)]
pub struct Text<'a> {
    held: Held<'a>,
}

#[derive(Debug, Drop)]
enum Held<'a> {
    Borrowed(&'a str),
    Short(ArrayString<SHORT>),
    Owned(String),
}

impl<'a> Model for Text<'a> {
    ghost use Rattle.std.specs.Prelude.{List, ℕ};

    ghost Value = { List ℕ };

    ghost use Rattle.dm_stream.specs.Texts.{held_bytes};

    ghost view = { λ t. held_bytes t.held };
}

impl<'a> Text<'a> {
    /// A text that lives elsewhere.
    pub fn borrowed(text: &'a str) -> Text<'a>
        ensures { result ≡ text.now }
    {
        Text {
            held: Held::Borrowed(text),
        }
    }

    /// A text that the value holds itself.
    pub fn owned(text: String) -> Text<'a>
        ensures { result ≡ string_bytes text }
    {
        Text {
            held: Held::Owned(text),
        }
    }

    fn short(text: ArrayString<SHORT>) -> Text<'a>
        ensures { result ≡ text.bytes }
    {
        Text {
            held: Held::Short(text),
        }
    }

    /// A text that the value holds itself, in place where it is short.
    fn kept(alloc: Global, text: &str) -> Made<Text<'a>>
        ensures { IfOk result (λ r. r ≡ text.now) }
    {
        match ArrayString::from(text) {
            Ok(short) => Ok(Text::short(short)),
            Err(_) => Ok(Text::owned(String::from_str(alloc, text)?)),
        }
    }

    /// An equal text. A borrowed one stays borrowed.
    pub fn clone_in(&self, alloc: Global) -> Result<Text<'a>, AllocError>
        ensures { IfOk result (λ r. r ≡ self.now) }
    {
        match &self.held {
            Held::Borrowed(text) => Ok(Text::borrowed(text)),
            Held::Short(text) => Ok(Text::short(*text)),
            Held::Owned(text) => Text::kept(alloc, text.as_str()),
        }
    }

    /// An equal text that borrows nothing. An owned one is taken over.
    pub fn into_owned<'b>(self, alloc: Global) -> Result<Text<'b>, AllocError>
        ensures { IfOk result (λ r. r ≡ self.entry) }
    {
        match self.held {
            Held::Owned(text) => Ok(Text::owned(text)),
            held => Text::kept(alloc, Text { held }.as_str()),
        }
    }

    /// The text, whether it is borrowed or owned.
    pub fn as_str(&self) -> &str
        ensures { result.now ≡ self.now }
    {
        match &self.held {
            Held::Borrowed(text) => text,
            Held::Short(text) => text.as_str(),
            Held::Owned(text) => text.as_str(),
        }
    }

    /// Whether the text is this word.
    pub fn is_same(&self, word: &str) -> bool
        ensures { IsTrue result ↔ (self.now ≡ word.now) }
    {
        self.as_str().len() == word.len() && self.as_str() == word
    }
}

impl<'a> PartialEq for Text<'a> {
    ghost eq = { λ a b. pointwise nat_eq a b };

    ghost laws = { Cmp.partial_equiv_from_equiv nat_list_eq_equiv };

    fn eq(&self, other: &Self) -> bool {
        self.as_str() == other.as_str()
    }
}

impl<'a> Eq for Text<'a> {
    ghost laws = { nat_list_eq_equiv };
}

impl<'a> Hash for Text<'a> {
    ghost hash_input = { λ t. fed.str t };

    ghost respects_eq = { Prim.search (hashing, rules) };

    fn hash<H: Hasher>(&self, state: &mut H) {
        self.as_str().hash(state);
    }
}
