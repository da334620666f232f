//! Lists of parts, whatever the parts are.
#![tactic(auto)]

ghost use Rattle.std.specs.Prelude.{◌≡◌, ◌≤◌, Result, IfOk, map};
ghost use Rattle.dm_stream.specs.Trees.{Trees};
ghost use Rattle.dm_stream.specs.declared.error.Refusal.{Refusal};
ghost use Rattle.dm_ast.specs.Spelling.{Where, deepest};
ghost use Rattle.dm_ast.specs.Readers as spec;
ghost use Rattle.dm_ast.specs.Readers.{◌next◌};
ghost use Rattle.dm_read.specs.Stops.{stops, list_view, begins_link, reads_link};
ghost use Rattle.dm_input.specs.Inputs.{Reads};

use crate::input::Input;
use dm_read::list::{Link, Stop};
use dm_stream::{Delim, Punctuated, Read, Seq};

/// Reads one part.
pub trait Rule<'a> {
    /// What the program holds of a part.
    type Part: Drop;

    /// What a part is as plain data.
    ghost Tree: { Type 0 };

    ghost view: { Self.Part → Tree };

    /// What the rule itself has to meet.
    ghost usable: { Self → Type 0 };

    ghost reader: { Self → Where → Trees → Result (Tree × Trees) Refusal };

    fn read(&self, input: &mut Input<'_, 'a>) -> Read<Self::Part>
        requires { usable self.now }
        ensures { Reads view (reader self.now) input.old result input.new };
}

impl<'t, 'a> Input<'t, 'a> {
    fn ends(&self, stop: Stop) -> bool
        ensures { result ≡ stops stop self.now.trees }
    {
        match stop {
            Stop::End => self.at_end(),
            Stop::Angle => self.sees('>'),
            Stop::Bounds => !self.sees_bound(),
            Stop::Lifetimes => !self.sees_lifetime(),
            Stop::Where => (self.at_end() || self.sees_group(Delim::Brace)) || self.sees(';'),
        }
    }

    fn begins(&self, link: Link) -> bool
        ensures { result ≡ begins_link link self.now.trees }
    {
        match link {
            Link::Colons => self.sees_colons(),
            Link::Plus => self.sees('+'),
        }
    }

    fn link(&mut self, link: Link) -> Read<()>
        ensures { Reads (λ v. v) (reads_link link) self.old result self.new }
    {
        match link {
            Link::Colons => self.colons(),
            Link::Plus => self.punct('+'),
        }
    }
}

/// Parts with a separator between, and perhaps one behind the last, up to where the list ends.
pub fn listed<'a, R: Rule<'a>>(
    rule: &R,
    separator: char,
    stop: Stop,
    input: &mut Input<'_, 'a>,
) -> Read<Punctuated<R::Part>>
    requires { R.usable rule.now }
    ensures { Reads (list_view R.view) (λ w. spec.read_list w separator (stops stop) (R.reader rule.now w)) input.old result input.new }
{
    let mut items = Seq::new(input.alloc());
    let mut trailing = false;
    for _turn in 0..input.turns() {
        if input.ends(stop) {
            return Ok(Punctuated { items, trailing });
        }
        let item = rule.read(input)?;
        items.add(item)?;
        if !input.sees(separator) {
            return Ok(Punctuated {
                items,
                trailing: false,
            });
        }
        input.punct(separator)?;
        trailing = true;
    }
    Err(input.refused())
}

/// A link and the part behind it.
fn linked<'a, R: Rule<'a>>(rule: &R, link: Link, input: &mut Input<'_, 'a>) -> Read<R::Part>
    requires { R.usable rule.now }
    ensures { Reads R.view (λ w. reads_link link w next R.reader rule.now w) input.old result input.new }
{
    input.link(link)?;
    rule.read(input)
}

/// Goes on with a chain, as long as links come.
fn continued<'a, R: Rule<'a>>(
    rule: &R,
    link: Link,
    begun: Seq<R::Part>,
    input: &mut Input<'_, 'a>,
) -> Read<Seq<R::Part>>
    requires { R.usable rule.now }
    ensures { Reads (map R.view) (λ w. spec.read_repeated w (begins_link link) (reads_link link w next R.reader rule.now w) (map R.view begun)) input.old result input.new }
{
    let mut items = begun;
    for _turn in 0..input.turns() {
        if !input.begins(link) {
            return Ok(items);
        }
        let item = linked(rule, link, input)?;
        items.add(item)?;
    }
    Err(input.refused())
}

/// One part at least, and a link before each other.
pub fn chained<'a, R: Rule<'a>>(
    rule: &R,
    link: Link,
    input: &mut Input<'_, 'a>,
) -> Read<Seq<R::Part>>
    requires { R.usable rule.now }
    ensures { Reads (map R.view) (λ w. spec.read_chain w (reads_link link w) (begins_link link) (R.reader rule.now w)) input.old result input.new }
{
    let first = rule.read(input)?;
    let mut begun = Seq::new(input.alloc());
    begun.add(first)?;
    continued(rule, link, begun, input)
}
