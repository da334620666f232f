//! The parts that hold no types.
#![tactic(auto)]

ghost use Rattle.dm_ast.specs.PlainReaders as plain;
ghost use Rattle.dm_ast.specs.Runs as runs;
ghost use Rattle.dm_read.specs.DeclarationReaders.{read_lifetime_bounds};
ghost use Rattle.dm_input.specs.Inputs.{Reads};

use crate::input::Input;
use dm_ast::{Attribute, ConstArg, Opaque, PlainPath, Vis};
use dm_read::{constants, lifetimes, parts, run, visibility};
use dm_stream::{Delim, Lifetime, Punctuated, Read, Seq, TokenStream};

impl<'t, 'a> Input<'t, 'a> {
    /// `::` where it comes next.
    pub fn leading(&mut self) -> Read<bool>
        ensures { Reads (λ b. b) plain.read_leading self.old result self.new }
    {
        if !self.sees_colons() {
            return Ok(false);
        }
        self.colons()?;
        Ok(true)
    }

    /// A path of identifiers.
    pub fn plain_path(&mut self) -> Read<PlainPath<'a>>
        ensures { Reads (λ p. p) plain.read_plain self.old result self.new }
    {
        let (found, rest) = parts::plain_path(self.alloc, self.level, self.at)?;
        self.at = rest;
        Ok(found)
    }

    /// A group with any delimiter, and its inside as it is.
    pub fn kept(&mut self) -> Read<(Delim, TokenStream<'a>)>
        ensures { Reads (λ v. v) plain.read_kept self.old result self.new }
    {
        let (found, rest) = parts::kept(self.alloc, self.level, self.at)?;
        self.at = rest;
        Ok(found)
    }

    /// All that is left, one tree at least.
    pub fn opaque(&mut self) -> Read<Opaque<'a>>
        ensures { Reads (λ o. o) plain.read_opaque self.old result self.new }
    {
        let (found, rest) = parts::opaque(self.alloc, self.level, self.at)?;
        self.at = rest;
        Ok(found)
    }

    /// The tokens of a discriminant, up to a comma or the end.
    pub fn run(&mut self) -> Read<Opaque<'a>>
        ensures { Reads (λ o. o) runs.read_run self.old result self.new }
    {
        let (found, rest) = run::run(self.alloc, self.level, self.at)?;
        self.at = rest;
        Ok(found)
    }

    /// Attributes.
    pub fn attributes(&mut self) -> Read<Seq<Attribute<'a>>>
        ensures { Reads (λ l. l) plain.read_attributes self.old result self.new }
    {
        let (found, rest) = parts::attributes(self.alloc, self.level, self.at)?;
        self.at = rest;
        Ok(found)
    }

    /// A constant: a literal, `true` or `false`, a block or a name.
    pub fn constant(&mut self) -> Read<ConstArg<'a>>
        ensures { Reads (λ c. c) plain.read_constant self.old result self.new }
    {
        let (found, rest) = constants::constant(self.alloc, self.level, self.at)?;
        self.at = rest;
        Ok(found)
    }

    /// `for<..>` where it comes next.
    pub fn for_lifetimes(&mut self) -> Read<Option<Punctuated<Lifetime<'a>>>>
        ensures { Reads (λ l. l) plain.read_for self.old result self.new }
    {
        let (found, rest) = lifetimes::for_lifetimes(self.alloc, self.level, self.at)?;
        self.at = rest;
        Ok(found)
    }

    /// Lifetimes with `+` between.
    pub fn lifetime_bounds(&mut self) -> Read<Punctuated<Lifetime<'a>>>
        ensures { Reads (λ l. l) read_lifetime_bounds self.old result self.new }
    {
        let (found, rest) = lifetimes::lifetime_bounds(self.alloc, self.level, self.at)?;
        self.at = rest;
        Ok(found)
    }

    /// A visibility where one comes next.
    pub fn visibility(&mut self) -> Read<Option<Vis<'a>>>
        ensures { Reads (λ v. v) plain.read_visibility self.old result self.new }
    {
        let (found, rest) = visibility::visibility(self.alloc, self.level, self.at)?;
        self.at = rest;
        Ok(found)
    }
}
