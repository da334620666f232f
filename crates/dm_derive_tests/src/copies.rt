//! Implementations as trees: those of `derive_text` and their copies are printed as their text.

use dm_derive::derive_text;
use dm_expansion::{Expansion, print_items};
use dm_nodes::item::ItemNodes;
use dm_output_copy::CloneEmitted;
use dm_stream::{Made, Read};
use std::alloc::Global;

/// A trait and a declaration.
type Row = (&'static str, &'static str);

/// Traits on a struct and on an enum.
const ROWS: &[Row] = &[
    ("PartialEq", "struct S<T> { a: T, b: u8 }"),
    (
        "PartialEq",
        "enum E<'a, T> where T: A { A(&'a T, T), B { t: T }, C }",
    ),
    ("Add", "struct S<T>(T, u8);"),
    ("Add", "enum E { A(i32), B }"),
    ("Mul", "struct S { a: u8 }"),
    ("Mul", "#[mul(forward)] enum E<T> { A(T), B { x: T } }"),
    ("Not", "struct S(u8);"),
    ("Not", "enum E { A(u8), B }"),
];

/// Lets an expansion go, as nodes, whose drop is proved where they are made.
fn let_go(made: Expansion<'_>) {
    let Expansion { items, text: _text } = made;
    let _items = ItemNodes::new(items);
}

/// Whether implementations are printed as their text.
fn is_of_text(alloc: Global, made: &Expansion<'_>) -> Made<bool> {
    let printed = print_items(alloc, made.items.as_slice())?;
    Ok(printed.as_str() == made.text.as_str())
}

/// Whether a copy of them is.
fn is_copied(alloc: Global, made: &Expansion<'_>) -> Made<bool> {
    let copy = made.clone_in(alloc)?;
    let printed = is_of_text(alloc, &copy);
    let_go(copy);
    printed
}

fn both_are(alloc: Global, made: &Expansion<'_>) -> Made<bool> {
    Ok(is_of_text(alloc, made)? && is_copied(alloc, made)?)
}

/// Whether what is derived, and a copy of it, are printed as their text.
fn are_of_text(alloc: Global, row: Row) -> Read<bool> {
    let made = derive_text(alloc, row.0, row.1)?;
    let printed = both_are(alloc, &made);
    let_go(made);
    Ok(printed?)
}

/// The first row of which this isn't so.
fn first_other(alloc: Global) -> Option<Row> {
    for row in ROWS.iter().copied() {
        if are_of_text(alloc, row) != Ok(true) {
            return Some(row);
        }
    }
    None
}

#[test]
fn copies(rt: HostRuntime) {
    assert_eq!(rt; first_other(rt.alloc()), None);
}
