//! Forms that several parts of a declaration have, whatever the parts are.
#![tactic(auto)]

ghost use Rattle.dm_ast.specs.Declarations as tree;
ghost use Rattle.dm_read.specs.DeclarationReaders as spec;
ghost use Rattle.dm_read.specs.Stops.{stops};
ghost use Rattle.dm_read_decl.specs.Rules as rules;
ghost use Rattle.dm_read_decl.specs.ShapeViews.{second_view};
ghost use Rattle.dm_input.specs.Inputs.{Reads};

use dm_ast::{Attribute, Vis};
use dm_input::Input;
use dm_input::join::{ended, joined};
use dm_input::list::{Rule, listed};
use dm_read::list::Stop;
use dm_stream::{Delim, Punctuated, Read, Seq};

/// A visibility where one comes next, and a part.
fn visible<'a, R: Rule<'a>>(rule: &R, input: &mut Input<'_, 'a>) -> Read<(Option<Vis<'a>>, R::Part)>
    requires { R.usable rule.now }
    ensures { Reads (second_view R.view) (rules.visible (R.reader rule.now)) input.old result input.new }
{
    let vis = input.visibility()?;
    joined(vis, rule.read(input))
}

/// Attributes, a visibility where one comes next, and a part.
pub fn marked<'a, R: Rule<'a>>(
    rule: &R,
    input: &mut Input<'_, 'a>,
) -> Read<(Seq<Attribute<'a>>, (Option<Vis<'a>>, R::Part))>
    requires { R.usable rule.now }
    ensures { Reads (second_view (second_view R.view)) (rules.marked (R.reader rule.now)) input.old result input.new }
{
    let attrs = input.attributes()?;
    joined(attrs, visible(rule, input))
}

/// Parts with commas between, and perhaps one behind the last, up to where they end.
pub fn commas<'a, R: Rule<'a>>(
    rule: &R,
    stop: Stop,
    input: &mut Input<'_, 'a>,
) -> Read<Punctuated<R::Part>>
    requires { R.usable rule.now }
    ensures { Reads (tree.listed R.view) (spec.read_listed (stops stop) (R.reader rule.now)) input.old result input.new }
{
    listed(rule, ',', stop, input)
}

/// Parts with commas between, in a group.
pub fn enclosed<'a, R: Rule<'a>>(
    rule: &R,
    delim: Delim,
    input: &mut Input<'_, 'a>,
) -> Read<Punctuated<R::Part>>
    requires { R.usable rule.now }
    ensures { Reads (tree.listed R.view) (rules.enclosed delim (R.reader rule.now)) input.old result input.new }
{
    let mut inside = input.open(delim)?;
    let found = commas(rule, Stop::End, &mut inside)?;
    ended(found, inside.close())
}
