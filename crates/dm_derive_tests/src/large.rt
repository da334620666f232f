//! Samples, and enums of many variants.

use dm_derive::{derive_printed, sample_text};
use dm_stream::{Made, Read};
use std::alloc::Global;

/// Sizes of samples, and their texts.
const TEXTS: &[(u32, &str)] = &[
    (2, "enum Sample<T> { V0, V1(T, u8), }"),
    (
        4,
        "enum Sample<T> { V0, V1(T, u8), V2 { a: T, b: u8 }, V3, }",
    ),
];

/// Whether the sample of this size has this text.
fn has_text(alloc: Global, size: u32, text: &str) -> Made<bool> {
    let sample = sample_text(alloc, size)?;
    Ok(sample.as_str() == text)
}

/// The first size whose sample has another text.
fn first_other(alloc: Global) -> Made<Option<u32>> {
    for (size, text) in TEXTS.iter().copied() {
        if !has_text(alloc, size, text)? {
            return Ok(Some(size));
        }
    }
    Ok(None)
}

#[test]
fn texts(rt: HostRuntime) -> Made<()> {
    assert_eq!(rt; first_other(rt.alloc())?, None);
    Ok(())
}

/// How many bytes the text of the largest sample has.
fn largest_length(alloc: Global) -> Made<usize> {
    let sample = sample_text(alloc, 2_000)?;
    Ok(sample.len())
}

#[test]
fn largest(rt: HostRuntime) -> Made<()> {
    assert!(rt; largest_length(rt.alloc())? < 60_000);
    Ok(())
}

/// `enum E { V0(u8), V1(u8), .. }`, with so many variants.
fn enumeration(alloc: Global, count: u32) -> Made<String> {
    let mut text = String::from_str(alloc, "enum E { ")?;
    for number in 0..count {
        let variant = format!(in alloc; "V{number}(u8), ")?;
        text.push_str(variant.as_str())?;
    }
    text.push('}')?;
    Ok(text)
}

/// The answer up to its first arm, and from the last arm of `ne` on.
const ENDS: (&str, &str) = (
    "# [allow (private_bounds)] # [automatically_derived] impl derive_more :: core :: cmp :: PartialEq for E { # [inline] fn eq (& self , __other : & Self) -> bool { derive_more :: core :: mem :: discriminant (self) == derive_more :: core :: mem :: discriminant (__other) && match (self , __other) { (Self :: V0 (__self_0 ,) , Self :: V0 (__other_0 ,)) => { __self_0 == __other_0 } , (Self :: V1 (",
    ", (Self :: V1999 (__self_0 ,) , Self :: V1999 (__other_0 ,)) => { __self_0 != __other_0 } , _ => unsafe { derive_more :: core :: hint :: unreachable_unchecked () } , } } }\n",
);

/// Whether a text has this length and these ends, and 4,000 arms whose body is a block.
fn is_whole(text: &str) -> bool {
    text.len() == 356_202
        && text.starts_with(ENDS.0)
        && text.ends_with(ENDS.1)
        && text.matches("=> {").count() == 4_000
}

/// Whether the implementation for so many variants is whole.
fn prints_whole(alloc: Global, count: u32) -> Read<bool> {
    let text = enumeration(alloc, count)?;
    let written = derive_printed(alloc, "PartialEq", text.as_str())?;
    Ok(is_whole(written.as_str()))
}

#[test]
fn two_thousand(rt: HostRuntime) -> Read<()> {
    assert!(rt; prints_whole(rt.alloc(), 2_000)?);
    Ok(())
}
