//! From the text of an implementation to the implementation.
#![tactic(auto)]

ghost use Rattle.std.specs.Prelude.{◌≡◌, [], ◌∷◌, string_bytes};
ghost use Rattle.dm_output.specs.Output.{ItemTree};
ghost use Rattle.dm_output.specs.Tokens.{printed};
ghost use Rattle.dm_emitted_laws.specs.Printable.{IsPrintable};
ghost use Rattle.dm_cmp_ops.specs.Expanded.{IsReadBack};

use dm_expansion::Expansion;
use dm_read_items::read_owned_items;
use dm_stream::{Read, Text};
use std::alloc::Global;

/// The implementations that a text is made of, with the text. They borrow nothing of it.
pub(crate) fn with_items<'a>(alloc: Global, text: String) -> Read<Expansion<'a>>
    ensures { (i : ItemTree) → IsPrintable i → string_bytes text ≡ printed (i ∷ []) → IsReadBack i (string_bytes text) result }
{
    let items = read_owned_items(alloc, &text)?;
    Ok(Expansion {
        items,
        text: Text::owned(text),
    })
}
