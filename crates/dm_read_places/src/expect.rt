//! Signs and words that have to come next.
#![tactic(auto, using(crate::proofs::Expecting::expect_steps))]

ghost use Rattle.std.specs.Prelude.{◌≡◌, false, MatchResult};
ghost use Rattle.dm_stream.specs.Trees.{no_trees};
ghost use Rattle.dm_ast.specs.Spelling.{at_end};
ghost use Rattle.dm_reread.specs.Reading as plain;
ghost use Rattle.dm_reread.specs.Reading.{comma_after, colon_after, semicolon_after, leads_after, assigns_after, plus_after, as_after, wild_after, int_after};
ghost use Rattle.dm_read_places.specs.Prelude.{next, Passes, Reads};
ghost use Rattle.dm_read_places.specs.Turns.{declared_at};

use crate::front::{Keyword, Sign};
use crate::place::Place;
use dm_read::words::is_name;
use dm_stream::{Ident, LitKind, Literal, Read};

impl<'t, 'a> Place<'t, 'a> {
    /// `,`.
    pub fn comma(&mut self) -> Read<()>
        ensures { Passes comma_after self.old result self.new }
    {
        if !self.take(Sign::Comma) {
            return Err(self.refused());
        }
        Ok(())
    }

    /// `:`.
    pub fn colon(&mut self) -> Read<()>
        ensures { Passes colon_after self.old result self.new }
    {
        if !self.take(Sign::Colon) {
            return Err(self.refused());
        }
        Ok(())
    }

    /// `;`.
    pub fn semicolon(&mut self) -> Read<()>
        ensures { Passes semicolon_after self.old result self.new }
    {
        if !self.take(Sign::Semicolon) {
            return Err(self.refused());
        }
        Ok(())
    }

    /// `=>`.
    pub fn leads(&mut self) -> Read<()>
        ensures { Passes leads_after self.old result self.new }
    {
        if !self.take(Sign::Leads) {
            return Err(self.refused());
        }
        Ok(())
    }

    /// `=` alone.
    pub fn assigns(&mut self) -> Read<()>
        ensures { Passes assigns_after self.old result self.new }
    {
        if !self.take(Sign::Assigns) {
            return Err(self.refused());
        }
        Ok(())
    }

    /// `+`.
    pub fn plus(&mut self) -> Read<()>
        ensures { Passes plus_after self.old result self.new }
    {
        if !self.take(Sign::Plus) {
            return Err(self.refused());
        }
        Ok(())
    }

    /// `as`.
    pub fn word_as(&mut self) -> Read<()>
        ensures { Passes as_after self.old result self.new }
    {
        if !self.take_keyword(Keyword::As) {
            return Err(self.refused());
        }
        Ok(())
    }

    /// `_`.
    pub fn wild(&mut self) -> Read<()>
        ensures { Passes wild_after self.old result self.new }
    {
        if !self.take_keyword(Keyword::Wild) {
            return Err(self.refused());
        }
        Ok(())
    }

    /// An integer.
    pub fn int(&mut self) -> Read<Literal<'a>>
        ensures { Reads (λ l. l) (λ ts. int_after (next ts)) self.old result self.new }
    {
        let Some(found) = self.literal() else {
            return Err(self.refused());
        };
        if !is_int(found.kind) {
            return Err(self.refused());
        }
        Ok(found.clone_in(self.alloc())?)
    }

    /// The end.
    pub fn close(&self) -> Read<()>
        ensures { MatchResult result (λ _. self.now ≡ no_trees) (λ e. at_end self.now ≡ false) }
    {
        if self.at_end() {
            Ok(())
        } else {
            Err(self.refused())
        }
    }

    /// A name that may be declared.
    pub fn declared(&mut self) -> Read<Ident<'a>>
        ensures { Reads (λ i. i) (λ ts. declared_at (next ts)) self.old result self.new }
    {
        let Some(ident) = self.name() else {
            return Err(self.refused());
        };
        if !is_name(ident) {
            return Err(self.refused());
        }
        Ok(ident.clone_in(self.alloc())?)
    }
}

/// Whether a literal is an integer.
pub fn is_int(kind: LitKind) -> bool
    ensures { result ≡ plain.is_int kind }
{
    match kind {
        LitKind::Int => true,
        _ => false,
    }
}

/// Whether a literal is a string in quotes.
pub fn is_str(kind: LitKind) -> bool
    ensures { result ≡ plain.is_str kind }
{
    match kind {
        LitKind::Str => true,
        _ => false,
    }
}
