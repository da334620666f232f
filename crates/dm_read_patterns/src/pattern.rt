//! The rules of patterns, over a reader of the patterns in them.
#![tactic(auto, using(crate::proofs::PatternSteps::pattern_steps))]

ghost use Rattle.std.specs.Prelude.{◌≡◌, map};
ghost use Rattle.dm_output.specs.Output.{patterns_of, named_of};
ghost use Rattle.dm_reread.specs.Reading as plain;
ghost use Rattle.dm_read_patterns.specs.PatternNests.{PatternNests};
ghost use Rattle.dm_read_patterns.specs.PatternRows as spec;
ghost use Rattle.dm_read_places.specs.Prelude.{path_view, pattern_view, named_view, next, Reads, ReadsWhole, rows};

use crate::path_pattern::path_pattern;
use dm_ast::Path;
use dm_input::join::{ended, joined};
use dm_output::Binding;
use dm_pattern_nodes::make::{
    bind, named_part, named_pattern, pair_of, str_pattern, tuple_pattern, wild,
};
use dm_pattern_nodes::node::{NamedNode, NamedNodes, PatternNode, PatternNodes};
use dm_read_places::expect::is_str;
use dm_read_places::front::{Keyword, Sign};
use dm_read_places::list::{Rule, Turn, gathered};
use dm_read_places::path::path;
use dm_read_places::place::Place;
use dm_stream::{Delim, Literal, Read};

/// The rules of patterns.
#[derive(Clone, Copy)]
pub struct Patterns<F> {
    /// A number that no list in the pattern exceeds, nor how deep patterns nest there.
    pub fuel: usize,
    /// How deep patterns may still nest.
    pub room: usize,
    /// Reads a pattern in a pattern.
    pub pattern: F,
}

impl<'a, F: Copy + for<'t> Fn(&mut Place<'t, 'a>, usize, usize) -> Read<PatternNode<'a>>> Patterns<
    F,
> {
    /// A pattern in a pattern.
    pub fn inner(&self, place: &mut Place<'_, 'a>) -> Read<PatternNode<'a>>
        requires { PatternNests self.now.room (F.pre self.now.pattern) (F.post self.now.pattern) }
        ensures { Reads pattern_view (rows self.now.fuel).pattern place.old result place.new }
    {
        (self.pattern)(place, self.fuel, self.room)
    }

    /// The rules with other fuel.
    fn with(&self, fuel: usize) -> Patterns<F>
        ensures { result ≡ record { fuel = fuel; room = self.now.room; pattern = self.now.pattern } }
    {
        Patterns {
            fuel,
            room: self.room,
            pattern: self.pattern,
        }
    }

    /// A pattern, and a comma behind it.
    fn before_comma(&self, place: &mut Place<'_, 'a>) -> Read<PatternNode<'a>>
        requires { PatternNests self.now.room (F.pre self.now.pattern) (F.post self.now.pattern) }
        ensures { Reads pattern_view (spec.before_comma self.now.fuel) place.old result place.new }
    {
        let found = self.inner(place)?;
        ended(found, place.comma())
    }

    /// A field's pattern behind its name, and a comma.
    fn behind_colon(&self, place: &mut Place<'_, 'a>) -> Read<PatternNode<'a>>
        requires { PatternNests self.now.room (F.pre self.now.pattern) (F.post self.now.pattern) }
        ensures { Reads pattern_view (spec.behind_colon self.now.fuel) place.old result place.new }
    {
        place.colon()?;
        self.before_comma(place)
    }

    /// A field with its pattern and a comma.
    fn field(&self, place: &mut Place<'_, 'a>) -> Read<NamedNode<'a>>
        requires { PatternNests self.now.room (F.pre self.now.pattern) (F.post self.now.pattern) }
        ensures { Reads named_view (spec.field self.now.fuel) place.old result place.new }
    {
        let name = place.declared()?;
        let (name, found) = joined(name, self.behind_colon(place))?;
        Ok(named_part(place.alloc(), name, found)?)
    }

    /// Patterns with a comma behind each, to the end.
    fn all(&self, place: &mut Place<'_, 'a>) -> Read<PatternNodes<'a>>
        requires { PatternNests self.now.room (F.pre self.now.pattern) (F.post self.now.pattern) }
        ensures { ReadsWhole (λ v. patterns_of (map pattern_view v)) (rows self.now.fuel).patterns place.old result }
    {
        let (found, _) = gathered(&PatternRule { rules: self }, self.fuel, place)?;
        Ok(found)
    }

    /// Fields with their patterns, to the end, and whether `..` stands there.
    fn fields(&self, place: &mut Place<'_, 'a>) -> Read<(NamedNodes<'a>, bool)>
        requires { PatternNests self.now.room (F.pre self.now.pattern) (F.post self.now.pattern) }
        ensures { ReadsWhole (λ v. (named_of (map named_view v.0), v.1)) (rows self.now.fuel).named_patterns place.old result }
    {
        gathered(&FieldRule { rules: self }, self.fuel, place)
    }

    /// The patterns behind the first, with `|` before each.
    pub fn alternatives(&self, place: &mut Place<'_, 'a>) -> Read<PatternNodes<'a>>
        requires { PatternNests self.now.room (F.pre self.now.pattern) (F.post self.now.pattern) }
        ensures { Reads (λ v. patterns_of (map pattern_view v)) (rows self.now.fuel).bars place.old result place.new }
    {
        let (found, _) = gathered(&BarRule { rules: self }, self.fuel, place)?;
        Ok(found)
    }

    /// A pattern by the path that it begins with.
    fn behind_path(&self, found: Path<'a>, place: &mut Place<'_, 'a>) -> Read<PatternNode<'a>>
        requires { PatternNests self.now.room (F.pre self.now.pattern) (F.post self.now.pattern) }
        ensures { Reads pattern_view (λ ts. plain.after_pattern_path (rows self.now.fuel) (path_view found.entry) ts (next ts)) place.old result place.new }
    {
        if let Some(mut inside) = place.group(Delim::Paren) {
            let (found, parts) = joined(found, self.all(&mut inside))?;
            return Ok(tuple_pattern(place.alloc(), found, parts)?);
        }
        if let Some(mut inside) = place.group(Delim::Brace) {
            let (found, parts) = joined(found, self.fields(&mut inside))?;
            return Ok(named_pattern(place.alloc(), found, parts)?);
        }
        Ok(path_pattern(place.alloc(), found)?)
    }

    /// A pattern that begins with a path.
    fn with_path(&self, place: &mut Place<'_, 'a>) -> Read<PatternNode<'a>>
        requires { PatternNests self.now.room (F.pre self.now.pattern) (F.post self.now.pattern) }
        ensures { Reads pattern_view (λ ts. plain.pattern_path (rows self.now.fuel) (next ts)) place.old result place.new }
    {
        let found = path(self.fuel, place)?;
        self.behind_path(found, place)
    }

    /// A comma, and the last pattern.
    fn last(&self, place: &mut Place<'_, 'a>) -> Read<PatternNode<'a>>
        requires { PatternNests self.now.room (F.pre self.now.pattern) (F.post self.now.pattern) }
        ensures { ReadsWhole pattern_view (spec.last self.now.fuel) place.old result }
    {
        place.comma()?;
        let found = self.inner(place)?;
        ended(found, place.close())
    }

    /// Two patterns with a comma between.
    fn pair(&self, place: &mut Place<'_, 'a>) -> Read<PatternNode<'a>>
        requires { PatternNests self.now.room (F.pre self.now.pattern) (F.post self.now.pattern) }
        ensures { ReadsWhole pattern_view (spec.pair self.now.fuel) place.old result }
    {
        let first = self.inner(place)?;
        let (first, second) = joined(first, self.last(place))?;
        Ok(pair_of(place.alloc(), first, second)?)
    }

    /// A pattern.
    pub fn row(&self, place: &mut Place<'_, 'a>) -> Read<PatternNode<'a>>
        requires { PatternNests self.now.room (F.pre self.now.pattern) (F.post self.now.pattern) }
        ensures { Reads pattern_view (λ ts. plain.read_pattern (rows self.now.fuel) (next ts)) place.old result place.new }
    {
        if place.take_keyword(Keyword::Wild) {
            return Ok(wild(place.alloc())?);
        }
        if place.take_keyword(Keyword::Ref) {
            return referred(place);
        }
        if let Some(mut inside) = place.group(Delim::Paren) {
            return self.pair(&mut inside);
        }
        if let Some(found) = place.literal() {
            return text(found, place);
        }
        self.with_path(place)
    }
}

/// Patterns with a comma behind each.
#[derive(Drop)]
struct PatternRule<'g, F> {
    rules: &'g Patterns<F>,
}

impl<'g, 'a, F: Copy + for<'t> Fn(&mut Place<'t, 'a>, usize, usize) -> Read<PatternNode<'a>>> Rule<
    'a,
> for PatternRule<'g, F> {
    ghost use Rattle.dm_output.specs.Output.{PatternTree};
    ghost use Rattle.dm_output.specs.Views.{pattern_view};
    ghost use Rattle.dm_read_patterns.specs.PatternNests.{PatternNests};
    ghost use Rattle.dm_read_patterns.specs.PatternTurns.{pattern_turn};

    type Part = PatternNode<'a>;

    type Last = ();

    ghost Tree = { PatternTree };

    ghost view = { pattern_view };

    ghost usable = { λ r. PatternNests r.rules.now.room (F.pre r.rules.now.pattern) (F.post r.rules.now.pattern) };

    ghost reader = { λ r. pattern_turn };

    fn turn(&self, fuel: usize, place: &mut Place<'_, 'a>) -> Read<Turn<PatternNode<'a>, ()>> {
        if place.at_end() {
            return Ok(Turn::End(()));
        }
        Ok(Turn::One(self.rules.with(fuel).before_comma(place)?))
    }
}

/// Fields with their patterns, with a comma behind each, and perhaps `..` behind the last.
#[derive(Drop)]
struct FieldRule<'g, F> {
    rules: &'g Patterns<F>,
}

impl<'g, 'a, F: Copy + for<'t> Fn(&mut Place<'t, 'a>, usize, usize) -> Read<PatternNode<'a>>> Rule<
    'a,
> for FieldRule<'g, F> {
    ghost use Rattle.dm_stream.specs.declared.tokens.Ident.{Ident};
    ghost use Rattle.dm_output.specs.Output.{PatternTree};
    ghost use Rattle.dm_output.specs.Views.{named_view};
    ghost use Rattle.dm_read_patterns.specs.PatternNests.{PatternNests};
    ghost use Rattle.dm_read_patterns.specs.PatternTurns.{named_pattern_turn};

    type Part = NamedNode<'a>;

    type Last = bool;

    ghost Tree = { Ident × PatternTree };

    ghost view = { named_view };

    ghost usable = { λ r. PatternNests r.rules.now.room (F.pre r.rules.now.pattern) (F.post r.rules.now.pattern) };

    ghost reader = { λ r. named_pattern_turn };

    fn turn(&self, fuel: usize, place: &mut Place<'_, 'a>) -> Read<Turn<NamedNode<'a>, bool>> {
        if place.at_end() {
            return Ok(Turn::End(false));
        }
        if place.take(Sign::Dots) {
            place.close()?;
            return Ok(Turn::End(true));
        }
        Ok(Turn::One(self.rules.with(fuel).field(place)?))
    }
}

/// Patterns with `|` before each.
#[derive(Drop)]
struct BarRule<'g, F> {
    rules: &'g Patterns<F>,
}

impl<'g, 'a, F: Copy + for<'t> Fn(&mut Place<'t, 'a>, usize, usize) -> Read<PatternNode<'a>>> Rule<
    'a,
> for BarRule<'g, F> {
    ghost use Rattle.dm_output.specs.Output.{PatternTree};
    ghost use Rattle.dm_output.specs.Views.{pattern_view};
    ghost use Rattle.dm_read_patterns.specs.PatternNests.{PatternNests};
    ghost use Rattle.dm_read_patterns.specs.PatternTurns.{bar_turn};

    type Part = PatternNode<'a>;

    type Last = ();

    ghost Tree = { PatternTree };

    ghost view = { pattern_view };

    ghost usable = { λ r. PatternNests r.rules.now.room (F.pre r.rules.now.pattern) (F.post r.rules.now.pattern) };

    ghost reader = { λ r. bar_turn };

    fn turn(&self, fuel: usize, place: &mut Place<'_, 'a>) -> Read<Turn<PatternNode<'a>, ()>> {
        if !place.take(Sign::Bar) {
            return Ok(Turn::End(()));
        }
        Ok(Turn::One(self.rules.with(fuel).inner(place)?))
    }
}

/// A name that is bound.
fn bound<'a>(how: Binding, place: &mut Place<'_, 'a>) -> Read<PatternNode<'a>>
    ensures { Reads pattern_view (λ ts. plain.bind_name how (next ts)) place.old result place.new }
{
    let name = place.declared()?;
    Ok(bind(place.alloc(), how, name)?)
}

/// What stands behind `ref`.
fn referred<'a>(place: &mut Place<'_, 'a>) -> Read<PatternNode<'a>>
    ensures { Reads pattern_view (λ ts. plain.ref_from (next ts)) place.old result place.new }
{
    if place.take_keyword(Keyword::Mut) {
        return bound(Binding::RefMut, place);
    }
    bound(Binding::Ref, place)
}

/// A string.
fn text<'a>(found: &Literal<'a>, place: &Place<'_, 'a>) -> Read<PatternNode<'a>>
    ensures { ReadsWhole pattern_view spec.text found.now result }
{
    if !is_str(found.kind) {
        return Err(place.refused());
    }
    let found = found.clone_in(place.alloc())?;
    Ok(str_pattern(place.alloc(), found)?)
}
