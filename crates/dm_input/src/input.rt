//! What rules read from: the trees that are left, the level of their tokens, and the memory for what is read.
#![tactic(auto, using(crate::proofs::Levels::level_steps))]

ghost use Rattle.std.specs.Prelude.{◌≡◌, ◌<◌, ◌≤◌, ◌+◌, true, false, IfOk, MatchResult};
ghost use Rattle.dm_stream.specs.Cursors.{left, end_of, sound, front_span};
ghost use Rattle.dm_stream.specs.declared.error.Error.TheVariants.{Refused};
ghost use Rattle.dm_stream.specs.declared.error.Kind.TheVariants.{Syntax, TooDeep};
ghost use Rattle.dm_ast.specs.Spelling as spelling;
ghost use Rattle.dm_ast.specs.Spelling.{deepest};
ghost use Rattle.dm_ast.specs.TypeGrammar as grammar;
ghost use Rattle.dm_ast.specs.Readers as spec;
ghost use Rattle.dm_ast.specs.Readers.{place};
ghost use Rattle.dm_ast.specs.PlainReaders as plain;
ghost use Rattle.dm_ast.specs.Keywords as spells;
ghost use Rattle.dm_input.specs.Inputs.{Reads, Opens, shallower};

use dm_read::constants::sees_truth;
use dm_read::group::{close, delim, open};
use dm_read::macro_call::sees_macro;
use dm_read::range::range_between;
use dm_read::{token, words};
use dm_stream::{Cursor, Delim, Error, Ident, Lifetime, Literal, Read, Span};
use std::alloc::Global;
use std::marker::Model;

/// A place in a list of trees, and the level of the tokens there.
#[derive(Drop)]
pub struct Input<'t, 'a> {
    pub(crate) alloc: Global,
    pub(crate) level: usize,
    pub(crate) at: Cursor<'t, 'a>,
}

impl<'t, 'a> Model for Input<'t, 'a> {
    ghost use Rattle.dm_input.specs.State.{State, state_code};

    ghost Value = { State };

    ghost coded = { state_code };

    ghost use Rattle.dm_input.specs.Places.{state_of, IsSound};

    ghost view = { state_of };

    ghost invariant = { IsSound };
}

impl<'t, 'a> Input<'t, 'a> {
    /// The trees at a cursor, whose tokens stand at this level.
    pub fn new(alloc: Global, level: usize, at: Cursor<'t, 'a>) -> Input<'t, 'a>
        requires here { sound at }
        requires fits { level ≤ deepest + 1 }
        ensures { result ≡ record { trees = left at.entry; at = place level at.entry } }
    {
        Input { alloc, level, at }
    }

    pub fn alloc(&self) -> Global {
        self.alloc
    }

    /// The place that was reached.
    pub fn cursor(&self) -> Cursor<'t, 'a>
        ensures sound { sound result }
        ensures trees { left result ≡ self.now.trees }
        ensures limit { end_of result ≡ self.now.at.limit }
    {
        self.at
    }

    /// A number that no list of parts exceeds.
    pub fn turns(&self) -> usize
        ensures { result ≡ spec.turns self.now.trees }
    {
        self.at.entries().len() + 1
    }

    /// The range of the next token, or the empty one where the list ends.
    pub fn front(&self) -> Span
        ensures { result ≡ front_span self.now.trees self.now.at.limit }
    {
        self.at.front()
    }

    /// The range of the tokens from an earlier place to this one.
    pub fn since(&self, begun: Cursor<'_, '_>) -> Span
        requires { sound begun }
        ensures { result ≡ spec.range_between (left begun.entry) self.now.trees }
    {
        range_between(begun, self.at)
    }

    /// The refusal of the next token, or of the end.
    pub fn refused(&self) -> Error
        ensures { result ≡ Refused (record { kind = Syntax; span = front_span self.now.trees self.now.at.limit }) }
    {
        token::refused(self.at)
    }

    /// The refusal of the next token, or of the end, as too deep.
    pub fn too_deep(&self) -> Error
        ensures { result ≡ Refused (record { kind = TooDeep; span = front_span self.now.trees self.now.at.limit }) }
    {
        token::too_deep(self.at.front())
    }

    /// Whether nothing is left.
    pub fn at_end(&self) -> bool
        ensures { result ≡ spelling.at_end self.now.trees }
    {
        token::at_end(self.at)
    }

    /// Whether a punct of this character comes next.
    pub fn sees(&self, ch: char) -> bool
        ensures { result ≡ spelling.sees ch self.now.trees }
    {
        token::sees(ch, self.at)
    }

    /// Whether this keyword comes next.
    pub fn sees_word(&self, word: &str) -> bool
        ensures { result ≡ spelling.sees_word word.now self.now.trees }
    {
        token::sees_word(word, self.at)
    }

    /// Whether `::` comes next.
    pub fn sees_colons(&self) -> bool
        ensures { result ≡ spelling.sees_colons self.now.trees }
    {
        token::sees_colons(self.at)
    }

    /// Whether `->` comes next.
    pub fn sees_arrow(&self) -> bool
        ensures { result ≡ spelling.sees_arrow self.now.trees }
    {
        token::sees_arrow(self.at)
    }

    /// Whether a `:` comes next that isn't the front of `::`.
    pub fn sees_colon(&self) -> bool
        ensures { result ≡ spelling.sees_colon self.now.trees }
    {
        token::sees_colon(self.at)
    }

    /// Whether a `=` comes next that isn't the front of `==` or `=>`.
    pub fn sees_equals(&self) -> bool
        ensures { result ≡ spelling.sees_equals self.now.trees }
    {
        token::sees_equals(self.at)
    }

    /// Whether a lifetime comes next.
    pub fn sees_lifetime(&self) -> bool
        ensures { result ≡ spelling.sees_lifetime self.now.trees }
    {
        token::sees_lifetime(self.at)
    }

    /// Whether a literal comes next.
    pub fn sees_literal(&self) -> bool
        ensures { result ≡ spelling.sees_literal self.now.trees }
    {
        token::sees_literal(self.at)
    }

    /// Whether a group with this delimiter comes next.
    pub fn sees_group(&self, delim: Delim) -> bool
        ensures { result ≡ spelling.sees_group delim self.now.trees }
    {
        token::sees_group(delim, self.at)
    }

    /// The delimiter of the group that comes next.
    pub fn delim(&self) -> Option<Delim>
        ensures { result ≡ plain.delim_of self.now.trees }
    {
        delim(self.at)
    }

    /// Whether `true` or `false` comes next.
    pub fn sees_truth(&self) -> bool
        ensures { result ≡ plain.sees_truth self.now.trees }
    {
        sees_truth(self.at)
    }

    /// Whether a macro's name, `!` and a group come next.
    pub fn sees_macro(&self) -> bool
        ensures { result ≡ grammar.sees_macro self.now.trees }
    {
        sees_macro(self.at)
    }

    /// Whether a bound comes next.
    pub fn sees_bound(&self) -> bool
        ensures { result ≡ grammar.sees_bound self.now.trees }
    {
        words::sees_bound(self.at)
    }

    /// Whether a name of a parameter and a `:` come next.
    pub fn sees_named(&self) -> bool
        ensures { result ≡ grammar.sees_named self.now.trees }
    {
        words::sees_named(self.at)
    }

    /// Whether `::` and `<` come next.
    pub fn sees_turbofish(&self) -> bool
        ensures { result ≡ grammar.sees_turbofish self.now.trees }
    {
        words::sees_turbofish(self.at)
    }

    /// Whether arguments of a segment come next.
    pub fn sees_arguments(&self) -> bool
        ensures { result ≡ grammar.sees_arguments self.now.trees }
    {
        words::sees_arguments(self.at)
    }

    /// A punct of this character.
    pub fn punct(&mut self, ch: char) -> Read<()>
        ensures reads { Reads (λ v. v) (spec.read_punct ch) self.old result self.new }
        ensures level { IfOk result (λ _. self.old.at.level ≤ deepest) }
    {
        self.at = token::punct(ch, self.level, self.at)?;
        Ok(())
    }

    /// This keyword.
    pub fn word(&mut self, word: &str) -> Read<()>
        ensures reads { Reads (λ v. v) (spec.read_word word.now) self.old result self.new }
        ensures level { IfOk result (λ _. self.old.at.level ≤ deepest) }
    {
        self.at = token::word(word, self.level, self.at)?;
        Ok(())
    }

    /// `::`.
    pub fn colons(&mut self) -> Read<()>
        ensures reads { Reads (λ v. v) spec.read_colons self.old result self.new }
        ensures level { IfOk result (λ _. self.old.at.level ≤ deepest) }
    {
        self.at = token::colons(self.level, self.at)?;
        Ok(())
    }

    /// `->`.
    pub fn arrow(&mut self) -> Read<()>
        ensures reads { Reads (λ v. v) spec.read_arrow self.old result self.new }
        ensures level { IfOk result (λ _. self.old.at.level ≤ deepest) }
    {
        self.at = token::arrow(self.level, self.at)?;
        Ok(())
    }

    /// A `:` that isn't the front of `::`.
    pub fn colon(&mut self) -> Read<()>
        ensures { Reads (λ v. v) spec.read_colon self.old result self.new }
    {
        self.at = token::colon(self.level, self.at)?;
        Ok(())
    }

    /// A `=` that isn't the front of `==` or `=>`.
    pub fn equals(&mut self) -> Read<()>
        ensures { Reads (λ v. v) spec.read_equals self.old result self.new }
    {
        self.at = token::equals(self.level, self.at)?;
        Ok(())
    }

    /// Any identifier.
    pub fn ident(&mut self) -> Read<Ident<'a>>
        ensures { Reads (λ i. i) spec.read_any self.old result self.new }
    {
        let (found, rest) = token::ident(self.level, self.at)?;
        let own = found.clone_in(self.alloc)?;
        self.at = rest;
        Ok(own)
    }

    /// An identifier that may be declared.
    pub fn name(&mut self) -> Read<Ident<'a>>
        ensures { Reads (λ i. i) (spec.read_ident spells.is_name) self.old result self.new }
    {
        let (found, rest) = words::name(self.level, self.at)?;
        let own = found.clone_in(self.alloc)?;
        self.at = rest;
        Ok(own)
    }

    /// A name of a parameter.
    pub fn input_name(&mut self) -> Read<Ident<'a>>
        ensures { Reads (λ i. i) (spec.read_ident grammar.is_input_name) self.old result self.new }
    {
        let (found, rest) = words::input_name(self.level, self.at)?;
        let own = found.clone_in(self.alloc)?;
        self.at = rest;
        Ok(own)
    }

    /// An identifier of a path of a type.
    pub fn path_word(&mut self) -> Read<Ident<'a>>
        ensures { Reads (λ i. i) (spec.read_ident grammar.is_path_word) self.old result self.new }
    {
        let (found, rest) = words::path_word(self.level, self.at)?;
        let own = found.clone_in(self.alloc)?;
        self.at = rest;
        Ok(own)
    }

    /// A lifetime.
    pub fn lifetime(&mut self) -> Read<Lifetime<'a>>
        ensures { Reads (λ l. l) spec.read_lifetime self.old result self.new }
    {
        let (found, rest) = token::lifetime(self.level, self.at)?;
        let own = found.clone_in(self.alloc)?;
        self.at = rest;
        Ok(own)
    }

    /// A literal.
    pub fn literal(&mut self) -> Read<Literal<'a>>
        ensures { Reads (λ l. l) spec.read_literal self.old result self.new }
    {
        let (found, rest) = token::literal(self.level, self.at)?;
        let own = found.clone_in(self.alloc)?;
        self.at = rest;
        Ok(own)
    }

    /// Goes one level deeper, in the same list.
    pub fn down(&mut self)
        requires { self.old.at.level ≤ deepest }
        ensures { self.new ≡ record { trees = self.old.trees; at = spelling.deeper self.old.at } }
    {
        self.level += 1;
    }

    /// Goes back to the level above.
    pub fn up(&mut self)
        requires { 0 < self.old.at.level }
        ensures { self.new ≡ record { trees = self.old.trees; at = shallower self.old.at } }
    {
        self.level -= 1;
    }

    /// The inside of a group with this delimiter. What follows the group is left here.
    pub fn open(&mut self, delim: Delim) -> Read<Input<'t, 'a>>
        ensures { Opens (spec.open_group delim) self.old result self.new }
    {
        let (inside, rest) = open(delim, self.level, self.at)?;
        self.at = rest;
        Ok(Input {
            alloc: self.alloc,
            level: self.level + 1,
            at: inside,
        })
    }

    /// Refuses what is left of the inside of a group.
    pub fn close(&self) -> Read<()>
        ensures { MatchResult result (λ _. spelling.at_end self.now.trees ≡ true) (λ e. (spelling.at_end self.now.trees ≡ false) × (e ≡ Refused (record { kind = Syntax; span = front_span self.now.trees self.now.at.limit }))) }
    {
        close(self.at)
    }
}
