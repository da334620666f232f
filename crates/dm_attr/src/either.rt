//! One of two kinds, values, or iterators.

ghost use Rattle.dm_attr.specs.Answers.{Within, same};
ghost use Rattle.dm_attr.specs.Eithers.{either, either_steps, MatchEither, ReadsEither, ReadsEitherOf, MergesEither};

use crate::parse::Parse;
use crate::parse_multiple::ParseMultiple;
use crate::parser::Parser;
use crate::spanning::Spanning;
use dm_ast::Attribute;
use dm_quote::ToTokens;
use dm_stream::{Cursor, Error, Kind, Refusal, TokenStream};
use std::alloc::{AllocError, Global};

/// A value of one of two types, as derive_more's `Either`. Its items and its tokens are those of the side that it holds.
#[derive(Drop)]
pub enum Either<L, R> {
    Left(L),
    Right(R),
}

impl<L: Iterator, R: Iterator<Item = L::Item>> Iterator for Either<L, R> {
    type Item = L::Item;

    ghost can_next = { λ s. MatchEither s L.can_next R.can_next };

    ghost next_gives = { either_steps L.next_gives R.next_gives };

    ghost remaining = { either L.remaining R.remaining };

    fn next(&mut self) -> Option<L::Item> {
        match self {
            Either::Left(left) => left.next(),
            Either::Right(right) => right.next(),
        }
    }

    fn size_hint(&self) -> (usize, Option<usize>) {
        match self {
            Either::Left(left) => left.size_hint(),
            Either::Right(right) => right.size_hint(),
        }
    }
}

impl<'a, L: ToTokens<'a>, R: ToTokens<'a>> ToTokens<'a> for Either<L, R> {
    ghost trees_of = { either L.trees_of R.trees_of };

    ghost stands = { λ e. MatchEither e L.stands R.stands };

    fn to_tokens(&self, out: &mut TokenStream<'a>) -> Result<(), AllocError> {
        match self {
            Either::Left(left) => left.to_tokens(out),
            Either::Right(right) => right.to_tokens(out),
        }
    }
}

/// The left kind where the whole of the trees left reads as it, else the right one, with its refusals. In derive_more the left
/// one is taken where a front of the trees reads as it.
impl<'a, L: Parse<'a> + Drop, R: Parse<'a>> Parse<'a> for Either<L, R> {
    ghost reads = { ReadsEither L.reads R.reads };

    fn parse<'t>(alloc: Global, c: Cursor<'t, 'a>) -> Result<(Self, Cursor<'t, 'a>), Error> {
        match L::parse(alloc, c) {
            Ok((value, rest)) => {
                if rest.eof() {
                    return Ok((Either::Left(value), rest));
                }
            }
            Err(Error::NoMemory) => return Err(Error::NoMemory),
            Err(Error::Refused(_)) => {}
        }
        let (value, rest) = R::parse(alloc, c)?;
        Ok((Either::Right(value), rest))
    }
}

/// The left kind where the attribute reads as it, else the right one, with its refusals. Values of one kind merge as that kind
/// does. A value of the other kind is refused with `AttrMixed`, at the later range.
impl<'a, L: ParseMultiple<'a>, R: ParseMultiple<'a>> ParseMultiple<'a> for Either<L, R> {
    ghost reads_attr = { ReadsEitherOf L.reads_attr R.reads_attr };

    ghost merges = { MergesEither L.merges R.merges };

    fn parse_attr_with<P: Parser>(
        alloc: Global,
        attr: &Attribute<'a>,
        parser: &P,
    ) -> Result<Self, Error> {
        match L::parse_attr_with(alloc, attr, parser) {
            Ok(value) => Ok(Either::Left(value)),
            Err(Error::NoMemory) => Err(Error::NoMemory),
            Err(Error::Refused(_)) => {
                let value = R::parse_attr_with(alloc, attr, parser)?;
                Ok(Either::Right(value))
            }
        }
    }

    fn merge_attrs(prev: Spanning<Self>, new: Spanning<Self>) -> Result<Spanning<Self>, Error>
        ensures { Within (MergesEither L.merges R.merges prev new) same result }
    {
        match (prev.item, new.item) {
            (Either::Left(first), Either::Left(second)) => {
                let merged = L::merge_attrs(
                    Spanning::new(first, prev.span),
                    Spanning::new(second, new.span),
                )?;
                Ok(Spanning::new(Either::Left(merged.item), merged.span))
            }
            (Either::Right(first), Either::Right(second)) => {
                let merged = R::merge_attrs(
                    Spanning::new(first, prev.span),
                    Spanning::new(second, new.span),
                )?;
                Ok(Spanning::new(Either::Right(merged.item), merged.span))
            }
            _ => Err(Error::Refused(Refusal {
                kind: Kind::AttrMixed,
                span: new.span,
            })),
        }
    }
}
