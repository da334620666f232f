//! Operators in front of an operand.
#![tactic(auto, using(crate::proofs::PrefixSteps::prefix_steps))]

ghost use Rattle.std.specs.Prelude.{◌≡◌, None, Some};
ghost use Rattle.dm_reread.specs.Reading as plain;
ghost use Rattle.dm_read_places.specs.Prelude.{expr_view, next, Reads, rows};
ghost use Rattle.dm_read_arguments.specs.ExprNests.{ExprNests};
ghost use Rattle.dm_read_exprs.specs.Rows as spec;

use crate::operators::Operators;
use dm_nodes::expr::ExprNode;
use dm_nodes::make_expr::{deref_of, ref_of, ref_opaque};
use dm_read_arguments::sort::Wanted;
use dm_read_formats::opaque::kept;
use dm_read_places::front::{Keyword, Sign};
use dm_read_places::place::Place;
use dm_read_posts::posts::Posts;
use dm_stream::{Delim, Read};

/// Whether what comes next goes on with a group in front of it: arguments, `.` or `?`.
fn goes_on(place: &Place<'_, '_>) -> bool
    ensures { result ≡ plain.goes_on (next place.now) }
{
    let mut ahead = Place::new(place.alloc(), place.cursor());
    if ahead.group(Delim::Paren).is_some() {
        return true;
    }
    place.sees(Sign::Dot) || place.sees(Sign::Asks)
}

/// Whether a group in parentheses comes next that nothing goes on with.
fn sees_closed_group(place: &Place<'_, '_>) -> bool
    ensures { result ≡ spec.sees_closed (next place.now) }
{
    let mut ahead = Place::new(place.alloc(), place.cursor());
    match ahead.group(Delim::Paren) {
        Some(_) => !goes_on(&ahead),
        None => false,
    }
}

/// `&` in front of a group that isn't read.
fn opaque_ref<'a>(place: &mut Place<'_, 'a>) -> Read<ExprNode<'a>>
    ensures { Reads expr_view (λ ts. spec.opaque_group (next ts)) place.old result place.new }
{
    let Some(inside) = place.group(Delim::Paren) else {
        return Err(place.refused());
    };
    if inside.at_end() {
        return Err(inside.refused());
    }
    let tokens = kept(&inside)?;
    Ok(ref_opaque(place.alloc(), tokens)?)
}

impl<F: Copy + for<'t, 'b> Fn(&mut Place<'t, 'b>, Wanted) -> Read<ExprNode<'b>>> Operators<F> {
    /// The operand of `&` or `&mut`.
    fn referred<'a>(
        &self,
        braces: bool,
        is_mut: bool,
        place: &mut Place<'_, 'a>,
    ) -> Read<ExprNode<'a>>
        requires { ExprNests self.now.parts.room (F.pre self.now.parts.expr) (F.post self.now.parts.expr) }
        ensures { Reads expr_view (plain.ref_from_pre (rows self.now.parts.fuel) braces is_mut) place.old result place.new }
    {
        let found = self.parts.operand(braces, place)?;
        Ok(ref_of(place.alloc(), is_mut, found)?)
    }

    /// What stands behind `&mut`.
    fn behind_mut<'a>(&self, braces: bool, place: &mut Place<'_, 'a>) -> Read<ExprNode<'a>>
        requires { ExprNests self.now.parts.room (F.pre self.now.parts.expr) (F.post self.now.parts.expr) }
        ensures { Reads expr_view (λ ts. plain.read_mut_ref (rows self.now.parts.fuel) braces ts (next ts)) place.old result place.new }
    {
        if sees_closed_group(place) {
            return Err(place.refused());
        }
        self.referred(braces, true, place)
    }

    /// What stands behind `&`.
    fn behind_amp<'a>(&self, braces: bool, place: &mut Place<'_, 'a>) -> Read<ExprNode<'a>>
        requires { ExprNests self.now.parts.room (F.pre self.now.parts.expr) (F.post self.now.parts.expr) }
        ensures { Reads expr_view (λ ts. plain.read_ref (rows self.now.parts.fuel) braces ts (next ts)) place.old result place.new }
    {
        if place.take_keyword(Keyword::Mut) {
            return self.behind_mut(braces, place);
        }
        if sees_closed_group(place) {
            return opaque_ref(place);
        }
        self.referred(braces, false, place)
    }

    /// An expression of the rows from members on.
    fn received<'a>(&self, braces: bool, place: &mut Place<'_, 'a>) -> Read<ExprNode<'a>>
        requires { ExprNests self.now.parts.room (F.pre self.now.parts.expr) (F.post self.now.parts.expr) }
        ensures { Reads expr_view (λ ts. plain.read_post (rows self.now.parts.fuel) braces ts (next ts)) place.old result place.new }
    {
        let found = self.base(braces, place)?;
        let posts = Posts { parts: self.parts };
        posts.with_posts(found, place)
    }

    /// An operand with what stands in front of it.
    pub(crate) fn prefixed<'a>(&self, braces: bool, place: &mut Place<'_, 'a>) -> Read<ExprNode<'a>>
        requires { ExprNests self.now.parts.room (F.pre self.now.parts.expr) (F.post self.now.parts.expr) }
        ensures { Reads expr_view (λ ts. plain.read_pre (rows self.now.parts.fuel) braces ts (next ts)) place.old result place.new }
    {
        if place.take(Sign::Star) {
            let found = self.parts.operand(braces, place)?;
            return Ok(deref_of(place.alloc(), found)?);
        }
        if place.take(Sign::Amp) {
            return self.behind_amp(braces, place);
        }
        self.received(braces, place)
    }
}
