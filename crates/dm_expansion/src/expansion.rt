//! Items to text.
#![tactic(auto, using(crate::proofs::Lines::line_steps))]

ghost use Rattle.std.specs.Prelude.{◌≡◌, [], ◌∷◌, ◌++◌, map, true, IfOk, OnOk, string_bytes};
ghost use Rattle.dm_stream.specs.Layout.{layout};
ghost use Rattle.dm_output.specs.Tokens.{printed, item_trees};
ghost use Rattle.dm_output.specs.Views.{item_view};

use dm_layout::{Layout, Printed};
use dm_nodes::item::ItemNodes;
use dm_output::Item;
use dm_print::item::item;
use dm_stream::{Made, Seq, Text};
use std::alloc::{AllocError, Global};

/// Items with their text.
#[derive(Drop)]
pub struct Expansion<'a> {
    pub items: Seq<Item<'a>>,
    pub text: Text<'a>,
}

/// The text of items, each of which LF ends.
pub fn print_items(alloc: Global, items: &[Item<'_>]) -> Result<String, AllocError>
    ensures { IfOk result (λ s. string_bytes s ≡ printed (map item_view items.now)) }
{
    let mut out = Layout::new(alloc);
    for one in items {
        line(one, &mut out)?;
    }
    Ok(out.into_string())
}

/// Adds an item and the end of its line, at the start of a line.
fn line(one: &Item<'_>, out: &mut Layout) -> Printed
    requires { out.now.glued ≡ true }
    ensures fresh { OnOk result (out.new.glued ≡ true) }
    ensures text { OnOk result (out.new.text ≡ out.old.text ++ (layout (item_trees (item_view one.now)) ++ 10 ∷ [])) }
{
    item(one, out)?;
    out.line_end()
}

/// The items, and their text by [print_items].
pub fn with_text<'a>(alloc: Global, items: Seq<Item<'a>>) -> Result<Expansion<'a>, AllocError>
    ensures items { IfOk result (λ x. x.items ≡ items.entry) }
    ensures text { IfOk result (λ x. x.text ≡ printed (map item_view items.entry)) }
{
    let items = ItemNodes::new(items);
    let text = text_of(&items, alloc)?;
    Ok(Expansion {
        items: items.into_trees(),
        text,
    })
}

fn text_of<'a>(items: &ItemNodes<'_>, alloc: Global) -> Made<Text<'a>>
    ensures { IfOk result (λ t. t ≡ printed (map item_view items.now)) }
{
    Ok(Text::owned(print_items(alloc, items.as_slice())?))
}
