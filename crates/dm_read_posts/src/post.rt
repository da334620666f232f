//! What stands behind a receiver: members, methods and `?`.
#![tactic(auto)]

ghost use Rattle.std.specs.Prelude.{◌≡◌, IfOk, map};
ghost use Rattle.dm_output.specs.Views.{expr_view};
ghost use Rattle.dm_reread.specs.Reading as plain;
ghost use Rattle.dm_reread.specs.Reading.{no_posts};
ghost use Rattle.dm_read_posts.specs.Posts.{post_then, posts_of, post_view};

use dm_ast::Opaque;
use dm_nodes::expr::{ExprNode, ExprNodes};
use dm_nodes::make_expr::{map_err_of, map_of, member_of, method_call_of, question_of};
use dm_output::Member;
use dm_stream::{Ident, Made, Seq};
use std::alloc::Global;

/// A member, a call of a method, or `?`.
#[derive(Drop)]
pub enum Post<'a> {
    /// `.x`
    Member(Member<'a>),
    /// `.f(a, b)`
    Call(Ident<'a>, ExprNodes<'a>),
    /// `.map(|v| a)`
    Map(ExprNode<'a>),
    /// `.map_err(tokens)`
    MapErr(Opaque<'a>),
    /// `?`
    Question,
}

/// A receiver with this behind it.
fn behind<'a>(alloc: Global, receiver: ExprNode<'a>, post: Post<'a>) -> Made<ExprNode<'a>>
    ensures { IfOk result (λ e. expr_view e ≡ plain.apply (expr_view receiver.entry) (post_then (post_view post.entry) no_posts)) }
{
    match post {
        Post::Member(member) => member_of(alloc, receiver, member),
        Post::Call(name, args) => method_call_of(alloc, receiver, name, args),
        Post::Map(value) => map_of(alloc, receiver, value),
        Post::MapErr(tokens) => map_err_of(alloc, receiver, tokens),
        Post::Question => question_of(alloc, receiver),
    }
}

/// A receiver with all of these behind it, the first next to it.
#[tactic(auto, using(crate::proofs::Applying::applying_steps))]
pub(crate) fn applied<'a>(
    alloc: Global,
    receiver: ExprNode<'a>,
    posts: Seq<Post<'a>>,
) -> Made<ExprNode<'a>>
    ensures { IfOk result (λ e. expr_view e ≡ plain.apply (expr_view receiver.entry) (posts_of (map post_view posts.entry))) }
{
    let mut found = receiver;
    for post in posts.into_iter() {
        found = behind(alloc, found, post)?;
    }
    Ok(found)
}
