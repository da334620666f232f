//! Statements that hold no expressions.
#![tactic(auto, using(crate::proofs::StatementSteps::statement_steps))]

ghost use Rattle.std.specs.Prelude.{◌≡◌, option_map};
ghost use Rattle.dm_reread.specs.Reading as plain;
ghost use Rattle.dm_read_places.specs.Prelude.{ty_view, stmt_view, opaque_view, next, Passes, Reads};
ghost use Rattle.dm_read_statements.specs.Statements as spec;

use dm_ast::{Opaque, Ty};
use dm_input::join::{ended, joined};
use dm_nodes::block::StmtNode;
use dm_nodes::make_block::{check_of, const_of, import_of};
use dm_read_formats::opaque::kept;
use dm_read_leaves::ty::ty;
use dm_read_places::expect::is_int;
use dm_read_places::path::path;
use dm_read_places::place::Place;
use dm_stream::{Delim, Literal, Read};

/// A type that is checked, behind `let _`. Refused where `:` and a type don't stand there.
pub fn check<'a>(place: &mut Place<'_, 'a>) -> Read<StmtNode<'a>>
    ensures { Reads stmt_view spec.check_of place.old result place.new }
{
    place.colon()?;
    let found = ty(place)?;
    Ok(check_of(place.alloc(), found)?)
}

/// `as _`
fn as_wild(place: &mut Place<'_, '_>) -> Read<()>
    ensures { Passes spec.as_wild place.old result place.new }
{
    place.word_as()?;
    place.wild()
}

/// An import, behind `use`.
fn import<'a>(fuel: usize, place: &mut Place<'_, 'a>) -> Read<StmtNode<'a>>
    ensures { Reads stmt_view (λ ts. spec.use_of fuel (next ts)) place.old result place.new }
{
    let found = path(fuel, place)?;
    let found = ended(found, as_wild(place))?;
    Ok(import_of(place.alloc(), found)?)
}

/// `0`
fn is_zero(found: &Literal<'_>) -> bool
    ensures { result ≡ plain.is_zero found.now }
{
    is_int(found.kind) && found.text.as_str() == "0"
}

/// What a constant begins with: a group that isn't read, or `0`.
fn base<'a>(place: &mut Place<'_, 'a>) -> Read<Option<Opaque<'a>>>
    ensures { Reads (λ o. option_map opaque_view o) (λ ts. plain.base_from (next ts)) place.old result place.new }
{
    if let Some(inside) = place.group(Delim::Paren) {
        if inside.at_end() {
            return Err(inside.refused());
        }
        return Ok(Some(kept(&inside)?));
    }
    let Some(found) = place.literal() else {
        return Err(place.refused());
    };
    if !is_zero(found) {
        return Err(place.refused());
    }
    Ok(None)
}

/// `+` and an integer.
fn added<'a>(place: &mut Place<'_, 'a>) -> Read<Literal<'a>>
    ensures { Reads (λ l. l) spec.added place.old result place.new }
{
    place.plus()?;
    place.int()
}

/// `=` and the value of a constant.
fn value<'a>(place: &mut Place<'_, 'a>) -> Read<(Option<Opaque<'a>>, Literal<'a>)>
    ensures { Reads (λ v. (option_map opaque_view v.0, v.1)) spec.constant_value place.old result place.new }
{
    place.assigns()?;
    let found = base(place)?;
    joined(found, added(place))
}

/// `:`, the type of a constant, and its value.
fn typed<'a>(place: &mut Place<'_, 'a>) -> Read<(Ty<'a>, (Option<Opaque<'a>>, Literal<'a>))>
    ensures { Reads (λ v. (ty_view v.0, (option_map opaque_view v.1.0, v.1.1))) spec.typed_constant place.old result place.new }
{
    place.colon()?;
    let found = ty(place)?;
    joined(found, value(place))
}

/// A constant, behind `const`.
fn constant<'a>(place: &mut Place<'_, 'a>) -> Read<StmtNode<'a>>
    ensures { Reads stmt_view (λ ts. spec.const_of (next ts)) place.old result place.new }
{
    let name = place.declared()?;
    let (name, behind) = joined(name, typed(place))?;
    Ok(const_of(place.alloc(), name, behind)?)
}

/// An import and a semicolon, behind `use`. Refused where they don't stand there. `fuel` is more than the number of the path's segments.
pub fn import_ended<'a>(fuel: usize, place: &mut Place<'_, 'a>) -> Read<StmtNode<'a>>
    ensures { Reads stmt_view (λ ts. spec.ended_stmt (spec.use_of fuel (next ts))) place.old result place.new }
{
    let found = import(fuel, place)?;
    ended(found, place.semicolon())
}

/// A constant and a semicolon, behind `const`. Refused where they don't stand there.
pub fn constant_ended<'a>(place: &mut Place<'_, 'a>) -> Read<StmtNode<'a>>
    ensures { Reads stmt_view (λ ts. spec.ended_stmt (spec.const_of (next ts))) place.old result place.new }
{
    let found = constant(place)?;
    ended(found, place.semicolon())
}
