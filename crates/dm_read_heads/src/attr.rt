//! Attributes, by the words in their brackets.
#![tactic(auto, using(crate::proofs::AttrSteps::attr_steps))]

ghost use Rattle.std.specs.Prelude.{◌≡◌, ◌<◌, suc, map, IfSome};
ghost use Rattle.dm_stream.specs.Cursors.{left, sound};
ghost use Rattle.dm_stream.specs.declared.tokens.Delim.TheVariants.{Paren};
ghost use Rattle.dm_stream.specs.Trees.{join};
ghost use Rattle.dm_output.specs.Tokens as spell;
ghost use Rattle.dm_output.specs.declared.item.ItemAttr.TheVariants as attr;
ghost use Rattle.dm_reread.specs.Reading as reading;
ghost use Rattle.dm_reread.specs.Items as plain;
ghost use Rattle.dm_reread.specs.Items.{same_words};
ghost use Rattle.dm_reread.specs.Whole.{size};
ghost use Rattle.dm_read_places.specs.Prelude.{next, Reads};
ghost use Rattle.dm_read_heads.specs.Attrs as spec;

use dm_output::ItemAttr;
use dm_read::token::at_end;
use dm_read_places::front::Sign;
use dm_read_places::list::{Rule, Turn, repeated};
use dm_read_places::place::Place;
use dm_stream::{Cursor, Delim, Read, Seq, Spacing};

// ---- words and puncts

fn is_alone(spacing: Spacing) -> bool
    ensures { result ≡ reading.is_alone spacing }
{
    match spacing {
        Spacing::Alone => true,
        Spacing::Joint => false,
    }
}

fn is_spaced(wanted: Spacing, spacing: Spacing) -> bool
    ensures { result ≡ spec.is_spaced wanted spacing }
{
    match wanted {
        Spacing::Alone => is_alone(spacing),
        Spacing::Joint => !is_alone(spacing),
    }
}

fn behind_word<'t, 'a>(wanted: &str, c: Cursor<'t, 'a>) -> Option<Cursor<'t, 'a>>
    requires { sound c }
    ensures gives { spec.Gives (spec.behind_word wanted.now (left c.entry)) result }
    ensures sound { IfSome result (λ r. sound r) }
{
    let (found, rest) = c.ident()?;
    if !(!found.raw && wanted == found.name.as_str()) {
        return None;
    }
    Some(rest)
}

fn behind_punct<'t, 'a>(spacing: Spacing, ch: char, c: Cursor<'t, 'a>) -> Option<Cursor<'t, 'a>>
    requires { sound c }
    ensures gives { spec.Gives (spec.behind_punct spacing ch (left c.entry)) result }
    ensures sound { IfSome result (λ r. sound r) }
{
    let (found, rest) = c.punct()?;
    if !(is_spaced(spacing, found.spacing) && ch == found.ch) {
        return None;
    }
    Some(rest)
}

fn in_last_parens<'t, 'a>(c: Cursor<'t, 'a>) -> Option<Cursor<'t, 'a>>
    requires { sound c }
    ensures gives { spec.Gives (spec.in_last_parens (left c.entry)) result }
    ensures sound { IfSome result (λ r. sound r) }
{
    let (inside, rest) = c.group(Delim::Paren)?;
    if !at_end(rest) {
        return None;
    }
    Some(inside)
}

fn inside_of<'t, 'a>(wanted: &str, c: Cursor<'t, 'a>) -> Option<Cursor<'t, 'a>>
    requires { sound c }
    ensures gives { spec.Gives (spec.inside_of wanted.now (left c.entry)) result }
    ensures sound { IfSome result (λ r. sound r) }
{
    in_last_parens(behind_word(wanted, c)?)
}

fn behind_dead_code<'t, 'a>(c: Cursor<'t, 'a>) -> Option<Cursor<'t, 'a>>
    requires { sound c }
    ensures gives { spec.Gives (spec.behind_dead_code (left c.entry)) result }
    ensures sound { IfSome result (λ r. sound r) }
{
    behind_punct(Spacing::Alone, ',', behind_word("dead_code", c)?)
}

fn behind_clippy<'t, 'a>(c: Cursor<'t, 'a>) -> Option<Cursor<'t, 'a>>
    requires { sound c }
    ensures gives { spec.Gives (spec.behind_clippy (left c.entry)) result }
    ensures sound { IfSome result (λ r. sound r) }
{
    let rest = behind_word("clippy", c)?;
    let second = behind_punct(Spacing::Joint, ':', rest)?;
    behind_punct(Spacing::Alone, ':', second)
}

// ---- attributes

/// Whether a word is all there is.
fn is_word(wanted: &str, c: Cursor<'_, '_>) -> bool
    requires { sound c }
    ensures { result ≡ same_words (spell.word wanted.now) (left c.entry) }
{
    match behind_word(wanted, c) {
        Some(rest) => at_end(rest),
        None => false,
    }
}

/// Whether a word and another in parentheses are all there is.
fn is_listed(wanted: &str, listed: &str, c: Cursor<'_, '_>) -> bool
    requires { sound c }
    ensures { result ≡ same_words (join (spell.word wanted.now) (spell.enclosed Paren (spell.word listed.now))) (left c.entry) }
{
    match inside_of(wanted, c) {
        Some(inside) => is_word(listed, inside),
        None => false,
    }
}

/// Whether it is `dead_code, private_bounds`.
fn are_dead_code_and_bounds(c: Cursor<'_, '_>) -> bool
    requires { sound c }
    ensures { result ≡ same_words (join spell.dead_code (join spell.comma spell.private_bounds)) (left c.entry) }
{
    match behind_dead_code(c) {
        Some(rest) => is_word("private_bounds", rest),
        None => false,
    }
}

/// Whether it is `clippy::unused_unit`.
fn is_unused_unit(c: Cursor<'_, '_>) -> bool
    requires { sound c }
    ensures { result ≡ same_words spell.unused_unit (left c.entry) }
{
    match behind_clippy(c) {
        Some(rest) => is_word("unused_unit", rest),
        None => false,
    }
}

fn allows_dead_code_and_bounds(c: Cursor<'_, '_>) -> bool
    requires { sound c }
    ensures { result ≡ same_words (spell.attr_inside attr.AllowDeadCodePrivateBounds) (left c.entry) }
{
    match inside_of("allow", c) {
        Some(inside) => are_dead_code_and_bounds(inside),
        None => false,
    }
}

fn allows_unused_unit(c: Cursor<'_, '_>) -> bool
    requires { sound c }
    ensures { result ≡ same_words (spell.attr_inside attr.AllowUnusedUnit) (left c.entry) }
{
    match inside_of("allow", c) {
        Some(inside) => is_unused_unit(inside),
        None => false,
    }
}

/// Whether brackets hold this attribute.
#[tactic(auto, using(crate::proofs::AttrSteps::name_steps))]
fn is_attr(wanted: ItemAttr, c: Cursor<'_, '_>) -> bool
    requires { sound c }
    ensures { result ≡ same_words (spell.attr_inside wanted) (left c.entry) }
{
    match wanted {
        ItemAttr::AllowPrivateBounds => is_listed("allow", "private_bounds", c),
        ItemAttr::AllowDeadCodePrivateBounds => allows_dead_code_and_bounds(c),
        ItemAttr::AllowDeprecated => is_listed("allow", "deprecated", c),
        ItemAttr::AllowUnreachableCode => is_listed("allow", "unreachable_code", c),
        ItemAttr::AllowNonUpperCaseGlobals => is_listed("allow", "non_upper_case_globals", c),
        ItemAttr::AllowUnusedUnit => allows_unused_unit(c),
        ItemAttr::AutomaticallyDerived => is_word("automatically_derived", c),
        ItemAttr::DocHidden => is_listed("doc", "hidden", c),
        ItemAttr::Inline => is_word("inline", c),
        ItemAttr::TrackCaller => is_word("track_caller", c),
    }
}

/// All attributes of the language.
const ATTRS: [ItemAttr; 10] = [
    ItemAttr::AllowPrivateBounds,
    ItemAttr::AllowDeadCodePrivateBounds,
    ItemAttr::AllowDeprecated,
    ItemAttr::AllowUnreachableCode,
    ItemAttr::AllowNonUpperCaseGlobals,
    ItemAttr::AllowUnusedUnit,
    ItemAttr::AutomaticallyDerived,
    ItemAttr::DocHidden,
    ItemAttr::Inline,
    ItemAttr::TrackCaller,
];

/// The first of these attributes that brackets hold.
fn attr_among(all: &[ItemAttr], c: Cursor<'_, '_>) -> Option<ItemAttr>
    requires { sound c }
    ensures { result ≡ plain.attr_among all.now (left c.entry) }
{
    for attr in all {
        if is_attr(*attr, c) {
            return Some(*attr);
        }
    }
    None
}

/// An attribute in brackets.
fn attr(place: &mut Place<'_, '_>) -> Read<ItemAttr>
    ensures { Reads (λ a. a) (λ ts. spec.attr_at (next ts)) place.old result place.new }
{
    let Some(inside) = place.group(Delim::Bracket) else {
        return Err(place.refused());
    };
    match attr_among(&ATTRS, inside.cursor()) {
        Some(found) => Ok(found),
        None => Err(place.refused()),
    }
}

/// Attributes.
#[derive(Clone, Copy)]
struct AttrRule;

impl<'a> Rule<'a> for AttrRule {
    ghost use Rattle.dm_output.specs.declared.item.ItemAttr.{ItemAttr};
    ghost use Rattle.dm_read_heads.specs.Attrs.{attr_turn};

    type Part = ItemAttr;

    type Last = ();

    ghost Tree = { ItemAttr };

    ghost view = { λ a. a };

    ghost usable = { λ _. Unit {0} };

    ghost reader = { λ _. attr_turn };

    fn turn(&self, _fuel: usize, place: &mut Place<'_, 'a>) -> Read<Turn<ItemAttr, ()>> {
        if !place.take(Sign::Hash) {
            return Ok(Turn::End(()));
        }
        Ok(Turn::One(attr(place)?))
    }
}

/// The attributes in front, in at most so many turns.
fn turned(place: &mut Place<'_, '_>, fuel: usize) -> Read<Seq<ItemAttr>>
    ensures { Reads (map (λ a. a)) (plain.read_attrs fuel) place.old result place.new }
{
    let (found, _) = repeated(&AttrRule, fuel, place)?;
    Ok(found)
}

/// A number that is more than that of the trees that are left.
fn enough(place: &Place<'_, '_>) -> usize
    ensures { size place.now < result }
{
    place.cursor().entries().len() + 1
}

/// The attributes in front, perhaps none. Refused is `#` where no attribute of the language stands behind it.
pub fn attrs(place: &mut Place<'_, '_>) -> Read<Seq<ItemAttr>>
    ensures { Reads (λ all. all) (λ ts. plain.read_attrs (suc (size ts)) ts) place.old result place.new }
{
    let fuel = enough(place);
    turned(place, fuel)
}
