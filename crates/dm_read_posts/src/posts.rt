//! Members, methods and `?` behind a receiver.
#![tactic(auto, using(crate::proofs::PostSteps::post_steps))]

ghost use Rattle.std.specs.Prelude.{◌≡◌, map};
ghost use Rattle.dm_output.specs.Output.{exprs_of};
ghost use Rattle.dm_reread.specs.Reading as plain;
ghost use Rattle.dm_read_places.specs.Repeating.{turn_view};
ghost use Rattle.dm_read_places.specs.Prelude.{expr_view, next, Reads, ReadsWhole, rows};
ghost use Rattle.dm_read_arguments.specs.ExprNests.{ExprNests};
ghost use Rattle.dm_read_posts.specs.Posts.{posts_of, post_view};
ghost use Rattle.dm_read_posts.specs.Turns as turns;
ghost use Rattle.dm_read_posts.specs.Rows as spec;

use crate::post::{Post, applied};
use dm_input::join::joined;
use dm_nodes::expr::{ExprNode, ExprNodes};
use dm_output::Member;
use dm_read::token::is_word;
use dm_read::words::is_name;
use dm_read_arguments::rules::Exprs;
use dm_read_arguments::sort::Wanted;
use dm_read_formats::opaque::kept;
use dm_read_places::front::Sign;
use dm_read_places::list::{Rule, Turn, repeated};
use dm_read_places::place::Place;
use dm_stream::{Delim, Ident, Read, Seq};

/// The rules of what stands behind a receiver.
#[derive(Clone, Copy)]
pub struct Posts<F> {
    /// Those of the expressions in it.
    pub parts: Exprs<F>,
}

impl<F: Copy> Posts<F> {
    /// The rules with other fuel.
    fn with(&self, fuel: usize) -> Posts<F>
        ensures { result ≡ record { parts = record { fuel = fuel; room = self.now.parts.room; expr = self.now.parts.expr } } }
    {
        Posts {
            parts: self.parts.with(fuel),
        }
    }
}

/// Members, methods and `?`, one after another.
#[derive(Drop)]
struct PostRule<'g, F> {
    rules: &'g Posts<F>,
}

impl<'g, 'a, F: Copy + for<'t, 'b> Fn(&mut Place<'t, 'b>, Wanted) -> Read<ExprNode<'b>>> Rule<'a>
    for PostRule<'g, F> {
    ghost use Rattle.dm_read_arguments.specs.ExprNests.{ExprNests};
    ghost use Rattle.dm_read_posts.specs.Posts.{PostTree, post_view};
    ghost use Rattle.dm_read_posts.specs.Turns.{post_turn};

    type Part = Post<'a>;

    type Last = ();

    ghost Tree = { PostTree };

    ghost view = { post_view };

    ghost usable = { λ r. ExprNests r.rules.now.parts.room (F.pre r.rules.now.parts.expr) (F.post r.rules.now.parts.expr) };

    ghost reader = { λ r. post_turn };

    fn turn(&self, fuel: usize, place: &mut Place<'_, 'a>) -> Read<Turn<Post<'a>, ()>> {
        self.rules.with(fuel).post(place)
    }
}

impl<F: Copy + for<'t, 'b> Fn(&mut Place<'t, 'b>, Wanted) -> Read<ExprNode<'b>>> Posts<F> {
    /// Arguments to the end, without a comma behind the last.
    fn plain_arguments<'a>(&self, place: &mut Place<'_, 'a>) -> Read<ExprNodes<'a>>
        requires { ExprNests self.now.parts.room (F.pre self.now.parts.expr) (F.post self.now.parts.expr) }
        ensures { ReadsWhole (λ v. exprs_of (map expr_view v)) (spec.plain_args self.now.parts.fuel) place.old result }
    {
        let (found, last) = self.parts.arguments(place)?;
        if last {
            return Err(place.refused());
        }
        Ok(found)
    }

    /// The call of a method of this name, by the inside of its parentheses.
    fn plain_call<'a>(&self, name: &Ident<'a>, inside: &mut Place<'_, 'a>) -> Read<Post<'a>>
        requires { ExprNests self.now.parts.room (F.pre self.now.parts.expr) (F.post self.now.parts.expr) }
        ensures { ReadsWhole post_view (turns.method_post self.now.parts.fuel name.now) inside.old result }
    {
        let own = name.clone_in(inside.alloc())?;
        let (own, args) = joined(own, self.plain_arguments(inside))?;
        Ok(Post::Call(own, args))
    }

    /// A closure behind its first `|`: its expression.
    fn closure<'a>(&self, inside: &mut Place<'_, 'a>) -> Read<ExprNode<'a>>
        requires { ExprNests self.now.parts.room (F.pre self.now.parts.expr) (F.post self.now.parts.expr) }
        ensures { ReadsWhole expr_view (λ ts. plain.closure_from (rows self.now.parts.fuel) (next ts)) inside.old result }
    {
        let Some(name) = inside.name() else {
            return Err(inside.refused());
        };
        if !is_word("v", name) {
            return Err(inside.refused());
        }
        if !inside.take(Sign::Bar) {
            return Err(inside.refused());
        }
        self.parts.alone(inside)
    }

    /// `map` with a closure, or as any other method.
    fn map_call<'a>(&self, name: &Ident<'a>, inside: &mut Place<'_, 'a>) -> Read<Post<'a>>
        requires { ExprNests self.now.parts.room (F.pre self.now.parts.expr) (F.post self.now.parts.expr) }
        ensures { ReadsWhole post_view (λ ts. turns.map_of self.now.parts.fuel name.now ts (next ts)) inside.old result }
    {
        if !inside.take(Sign::Bar) {
            return self.plain_call(name, inside);
        }
        Ok(Post::Map(self.closure(inside)?))
    }

    /// `map_err` with what isn't read, or as any other method.
    fn map_err_call<'a>(&self, name: &Ident<'a>, inside: &mut Place<'_, 'a>) -> Read<Post<'a>>
        requires { ExprNests self.now.parts.room (F.pre self.now.parts.expr) (F.post self.now.parts.expr) }
        ensures { ReadsWhole post_view (turns.map_err_of self.now.parts.fuel name.now) inside.old result }
    {
        if inside.at_end() {
            return self.plain_call(name, inside);
        }
        Ok(Post::MapErr(kept(inside)?))
    }

    /// The call of a method.
    fn method<'a>(&self, name: &Ident<'a>, inside: &mut Place<'_, 'a>) -> Read<Post<'a>>
        requires { ExprNests self.now.parts.room (F.pre self.now.parts.expr) (F.post self.now.parts.expr) }
        ensures { ReadsWhole post_view (turns.call_of self.now.parts.fuel name.now) inside.old result }
    {
        if is_word("map_err", name) {
            return self.map_err_call(name, inside);
        }
        if is_word("map", name) {
            return self.map_call(name, inside);
        }
        self.plain_call(name, inside)
    }

    /// A method or a field of this name.
    fn named<'a>(&self, name: &Ident<'a>, place: &mut Place<'_, 'a>) -> Read<Post<'a>>
        requires { ExprNests self.now.parts.room (F.pre self.now.parts.expr) (F.post self.now.parts.expr) }
        ensures { Reads post_view (λ ts. turns.member_at self.now.parts.fuel name.now ts (next ts)) place.old result place.new }
    {
        if let Some(mut inside) = place.group(Delim::Paren) {
            return self.method(name, &mut inside);
        }
        Ok(Post::Member(Member::Named(name.clone_in(place.alloc())?)))
    }

    /// What stands behind `.`.
    fn behind_dot<'a>(&self, place: &mut Place<'_, 'a>) -> Read<Post<'a>>
        requires { ExprNests self.now.parts.room (F.pre self.now.parts.expr) (F.post self.now.parts.expr) }
        ensures { Reads post_view (λ ts. turns.post_behind self.now.parts.fuel (next ts)) place.old result place.new }
    {
        let Some(name) = place.name() else {
            return Ok(Post::Member(Member::Index(place.int()?)));
        };
        if !is_name(name) {
            return Err(place.refused());
        }
        self.named(name, place)
    }

    /// A member, a method or `?`, or what ends them.
    fn post<'a>(&self, place: &mut Place<'_, 'a>) -> Read<Turn<Post<'a>, ()>>
        requires { ExprNests self.now.parts.room (F.pre self.now.parts.expr) (F.post self.now.parts.expr) }
        ensures { Reads (turn_view post_view (λ u. u)) (turns.post_turn self.now.parts.fuel) place.old result place.new }
    {
        if place.take(Sign::Dot) {
            return Ok(Turn::One(self.behind_dot(place)?));
        }
        if place.take(Sign::Asks) {
            return Ok(Turn::One(Post::Question));
        }
        Ok(Turn::End(()))
    }

    /// What stands behind a receiver.
    fn posts<'a>(&self, place: &mut Place<'_, 'a>) -> Read<Seq<Post<'a>>>
        requires { ExprNests self.now.parts.room (F.pre self.now.parts.expr) (F.post self.now.parts.expr) }
        ensures { Reads (λ v. posts_of (map post_view v)) (rows self.now.parts.fuel).posts place.old result place.new }
    {
        let (found, _) = repeated(&PostRule { rules: self }, self.parts.fuel, place)?;
        Ok(found)
    }

    /// A receiver with all that stands behind it.
    pub fn with_posts<'a>(
        &self,
        receiver: ExprNode<'a>,
        place: &mut Place<'_, 'a>,
    ) -> Read<ExprNode<'a>>
        requires { ExprNests self.now.parts.room (F.pre self.now.parts.expr) (F.post self.now.parts.expr) }
        ensures { Reads expr_view (spec.posts_behind self.now.parts.fuel (expr_view receiver.entry)) place.old result place.new }
    {
        let (receiver, posts) = joined(receiver, self.posts(place))?;
        Ok(applied(place.alloc(), receiver, posts)?)
    }
}
