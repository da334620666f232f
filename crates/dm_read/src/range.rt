//! The ranges of what is read.
#![tactic(auto)]

ghost use Rattle.std.specs.Prelude.{◌≡◌};
ghost use Rattle.dm_stream.specs.Cursors.{left, sound};
ghost use Rattle.dm_ast.specs.Readers as spec;

use crate::rest::span_of;
use dm_stream::{Cursor, Entry, Span};

/// The end of the last entry, or `begun` where there is none.
#[tactic(auto, using(crate::proofs::Ranges::end_steps))]
fn last_end(begun: usize, entries: &[Entry<'_>]) -> usize
    ensures { result ≡ spec.last_end begun entries.now }
{
    match entries {
        [.., last] => span_of(last).end,
        [] => begun,
    }
}

fn range_over(entries: &[Entry<'_>]) -> Span
    ensures { result ≡ spec.range_over entries.now }
{
    match entries {
        [first, rest @ ..] => {
            let span = span_of(first);
            Span {
                start: span.start,
                end: last_end(span.end, rest),
            }
        }
        [] => Span { start: 0, end: 0 },
    }
}

/// The range of the tokens from one place to another.
#[tactic(auto, using(crate::proofs::Ranges::between_steps))]
pub fn range_between(from: Cursor<'_, '_>, upto: Cursor<'_, '_>) -> Span
    requires begins { sound from }
    requires ends { sound upto }
    ensures { result ≡ spec.range_between (left from.entry) (left upto.entry) }
{
    let entries = from.entries();
    let (front, _) = entries.split_at(entries.len().saturating_sub(upto.len()));
    range_over(front)
}
