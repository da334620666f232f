//! Texts.
#![tactic(auto, using(crate::proofs::ReadSteps::read_steps))]

ghost use Rattle.std.specs.Prelude.{◌≡◌, ℕ, List, map, None, IfOk, IfErr};
ghost use Rattle.dm_stream.specs.declared.error.Kind.TheVariants.{Syntax};
ghost use Rattle.dm_lexer.specs.Nesting.{IsTreesOf};
ghost use Rattle.dm_output.specs.Views.{item_view};
ghost use Rattle.dm_read_items.specs.Reading.{IsFollowed, Becomes, IsWithin, IsUnread};

use crate::items::items;
use dm_levels::first_deep;
use dm_lexer::{lex, lex_owned};
use dm_nodes::item::ItemNodes;
use dm_output::Item;
use dm_read_places::place::Place;
use dm_stream::{Error, Kind, Read, Refusal, Seq, Span, TokenStream};
use std::alloc::Global;

/// A refusal of trees that no implementation has.
fn unlike(error: Error) -> Error
    ensures { Becomes error result }
{
    match error {
        Error::NoMemory => Error::NoMemory,
        Error::Refused(found) => Error::Refused(Refusal {
            kind: Kind::Syntax,
            span: found.span,
        }),
    }
}

/// What was read, or the refusal of its first token that stands too deep.
#[tactic(auto)]
fn within<T: Drop>(found: T, deep: Option<Span>) -> Read<T>
    ensures { IsWithin found deep result }
{
    match deep {
        None => Ok(found),
        Some(span) => Err(Error::Refused(Refusal {
            kind: Kind::TooDeep,
            span,
        })),
    }
}

/// The implementations of a text's trees, whose texts are the stream's.
fn items_of<'a>(alloc: Global, stream: &TokenStream<'a>) -> Read<ItemNodes<'a>>
    ensures items { (text : List ℕ) → IsTreesOf text stream.now.trees → IfOk result (λ all. IsFollowed text (map item_view all) None) }
    ensures unread { (text : List ℕ) → IsTreesOf text stream.now.trees → IfErr result (IsUnread text) }
{
    match items(&mut Place::new(alloc, stream.cursor())) {
        Ok(found) => {
            let deep = first_deep(found.as_slice(), stream.entries());
            within(found, deep)
        }
        Err(error) => Err(unlike(error)),
    }
}

/// The trees of what was read.
#[tactic(auto)]
fn trees_of<'a>(read: Result<ItemNodes<'a>, Error>) -> Read<Seq<Item<'a>>>
    ensures { result ≡ read.entry }
{
    match read {
        Ok(found) => Ok(found.into_trees()),
        Err(error) => Err(error),
    }
}

/// The implementations that a text is made of, as `print_items` prints them, in any layout. What is read borrows the text.
///
/// Errors: those of `lex`; `Kind::TooDeep` where the text would be made of implementations but for its depth, at the first token that stands
/// at a level over 128: inside so many groups, `<..>`, types behind `&`, `*`, `fn`, `dyn` and `impl`, and operands of `&`, `*` and `return`; and
/// `Kind::Syntax` where no implementations of the output language have the text's tokens, at the token where reading stopped. A type that nests
/// deeper than 128 by itself isn't of the language, and where more than 1024 expressions stand in one another the answer is `Error::NoMemory`.
pub fn read_items<'a>(alloc: Global, text: &'a str) -> Result<Seq<Item<'a>>, Error>
    ensures items { IfOk result (λ all. IsFollowed text.now (map item_view all) None) }
    ensures unread { IfErr result (IsUnread text.now) }
{
    let stream = lex(alloc, text)?;
    trees_of(items_of(alloc, &stream))
}

/// The same, where what is read borrows nothing.
pub fn read_owned_items<'a>(alloc: Global, text: &str) -> Result<Seq<Item<'a>>, Error>
    ensures items { IfOk result (λ all. IsFollowed text.now (map item_view all) None) }
    ensures unread { IfErr result (IsUnread text.now) }
{
    let stream = lex_owned(alloc, text)?;
    trees_of(items_of(alloc, &stream))
}
