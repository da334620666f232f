//! How many trees are left.
#![tactic(auto, using(crate::proofs::CountSteps::count_steps))]

ghost use Rattle.std.specs.Prelude.{◌≡◌, ◌+◌, ◌*◌, suc, IfSome};
ghost use Rattle.dm_stream.specs.Cursors.{left, sound};
ghost use Rattle.dm_reread.specs.Whole.{size};
ghost use Rattle.dm_read_members.specs.Rows as spec;

use dm_stream::{Cursor, Entry};

fn is_close(entry: &Entry<'_>) -> bool
    ensures { result ≡ spec.is_close entry.now }
{
    match entry {
        Entry::Close(_, _) => true,
        _ => false,
    }
}

/// The number of tokens and groups among entries.
fn opened(entries: &[Entry<'_>]) -> usize
    ensures { result ≡ spec.opened entries.now }
{
    let mut count = 0;
    for entry in entries {
        if !is_close(entry) {
            count += 1;
        }
    }
    count
}

/// One more than the number of trees, those in groups among them.
pub(crate) fn turns(c: Cursor<'_, '_>) -> usize
    requires { sound c }
    ensures { result ≡ suc (size (left c.entry)) }
{
    opened(c.entries()) + 1
}

/// How deep a block with these trees may nest, and how long its lists are.
pub(crate) fn fuel(c: Cursor<'_, '_>) -> Option<usize>
    requires { sound c }
    ensures { IfSome result (λ n. n ≡ 1 + 5 * size (left c.entry)) }
{
    opened(c.entries()).checked_mul(5)?.checked_add(1)
}
