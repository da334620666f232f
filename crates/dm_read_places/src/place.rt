//! What rules read from: a place in a list of trees, and the memory for what is read.
#![tactic(auto, using(crate::proofs::Seeing::place_steps))]

ghost use Rattle.std.specs.Prelude.{◌≡◌, false, MatchOption};
ghost use Rattle.dm_stream.specs.Cursors.{left, sound};
ghost use Rattle.dm_ast.specs.Spelling as spelling;
ghost use Rattle.dm_reread.specs.Next.{next, a_name, literal, group_next};
ghost use Rattle.dm_read_places.specs.Fronts.{sign_next, is_sign, is_keyword, keyword_next, is_name_next, is_literal_next, is_group_next};
ghost use Rattle.dm_read_places.specs.Reads.{Takes, RefusesFront};

use crate::front::{Keyword, Sign, first_sign, kind_of};
use dm_read::token;
use dm_stream::{Cursor, Delim, Error, Ident, Literal, Read};
use std::alloc::Global;
use std::marker::Model;

/// A place in a list of trees, and the memory for what is read there.
#[derive(Drop)]
pub struct Place<'t, 'a> {
    pub(crate) alloc: Global,
    pub(crate) at: Cursor<'t, 'a>,
}

impl<'t, 'a> Model for Place<'t, 'a> {
    ghost use Rattle.dm_stream.specs.Trees.{Trees, coded_trees};

    ghost Value = { Trees };

    ghost coded = { coded_trees };

    ghost use Rattle.dm_read_places.specs.Places.{trees_of, IsSound};

    ghost view = { trees_of };

    ghost invariant = { IsSound };
}

impl<'t, 'a> Place<'t, 'a> {
    /// The trees at a cursor.
    pub fn new(alloc: Global, at: Cursor<'t, 'a>) -> Place<'t, 'a>
        requires { sound at }
        ensures { result ≡ left at.entry }
    {
        Place { alloc, at }
    }

    pub fn alloc(&self) -> Global {
        self.alloc
    }

    /// The place that was reached.
    pub fn cursor(&self) -> Cursor<'t, 'a>
        ensures sound { sound result }
        ensures trees { left result ≡ self.now }
    {
        self.at
    }

    /// Goes on at a cursor.
    pub fn go(&mut self, at: Cursor<'t, 'a>)
        requires { sound at }
        ensures { self.new ≡ left at.entry }
    {
        self.at = at;
    }

    /// Whether nothing is left.
    pub fn at_end(&self) -> bool
        ensures { result ≡ spelling.at_end self.now }
    {
        token::at_end(self.at)
    }

    /// The refusal of the next token, or of the end.
    pub fn refused(&self) -> Error
        ensures { RefusesFront self.now result }
    {
        token::refused(self.at)
    }

    /// Whether a sign comes next.
    pub fn sees(&self, wanted: Sign) -> bool
        ensures { result ≡ is_sign wanted (next self.now) }
    {
        match first_sign(self.at) {
            Some((found, _)) => found.is(wanted),
            None => false,
        }
    }

    /// Passes a sign where it comes next: whether it stood there.
    pub fn take(&mut self, wanted: Sign) -> bool
        ensures { Takes (is_sign wanted) (sign_next wanted) self.old result self.new }
    {
        match first_sign(self.at) {
            Some((found, rest)) => {
                if !found.is(wanted) {
                    return false;
                }
                self.at = rest;
                true
            }
            None => false,
        }
    }

    /// Passes a keyword where it comes next: whether it stood there.
    pub fn take_keyword(&mut self, wanted: Keyword) -> bool
        ensures { Takes (is_keyword wanted) (keyword_next wanted) self.old result self.new }
    {
        match self.at.ident() {
            Some((ident, rest)) => {
                if !kind_of(ident).is(wanted) {
                    return false;
                }
                self.at = rest;
                true
            }
            None => false,
        }
    }

    /// Passes a word of a path where one comes next, and gives it.
    pub fn name(&mut self) -> Option<&'t Ident<'a>>
        ensures { MatchOption result ((is_name_next (next self.old) ≡ false) × (self.new ≡ self.old)) (λ i. next self.old ≡ a_name i.now self.new) }
    {
        let (ident, rest) = self.at.ident()?;
        if !kind_of(ident).is_name() {
            return None;
        }
        self.at = rest;
        Some(ident)
    }

    /// Passes a literal where one comes next, and gives it.
    pub fn literal(&mut self) -> Option<&'t Literal<'a>>
        ensures { MatchOption result ((is_literal_next (next self.old) ≡ false) × (self.new ≡ self.old)) (λ l. next self.old ≡ literal l.now self.new) }
    {
        let (found, rest) = self.at.literal()?;
        self.at = rest;
        Some(found)
    }

    /// Passes a group with this delimiter where one comes next, and gives its inside.
    pub fn group(&mut self, delim: Delim) -> Option<Place<'t, 'a>>
        ensures { MatchOption result ((is_group_next delim (next self.old) ≡ false) × (self.new ≡ self.old)) (λ inside. next self.old ≡ group_next delim inside self.new) }
    {
        let (inside, rest) = self.at.group(delim)?;
        self.at = rest;
        Some(Place {
            alloc: self.alloc,
            at: inside,
        })
    }
}
