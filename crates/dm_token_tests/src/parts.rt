//! Parts put together, and trees in boxes: each call once.

use dm_gather::{Gathers, Node, Nodes, discard, fronted};
use dm_stream::{Made, Seq};
use std::alloc::Global;

/// Parts gathered one after another.
fn gathered(alloc: Global, parts: &[u8]) -> Made<Seq<u8>> {
    let mut all: Seq<u8> = Gathers::none(alloc);
    for part in parts {
        all.gather(*part)?;
    }
    Ok(all)
}

#[test]
fn gathers(rt: HostRuntime) -> Made<()> {
    let all = gathered(rt.alloc(), &[3, 5])?;
    assert!(rt; all.as_slice() == [3, 5].as_slice());
    Ok(())
}

#[test]
fn puts_in_front(rt: HostRuntime) -> Made<()> {
    let alloc = rt.alloc();
    let all = fronted(alloc, 1, gathered(alloc, &[3, 5])?)?;
    assert!(rt; all.as_slice() == [1, 3, 5].as_slice());
    Ok(())
}

#[test]
fn lets_go(rt: HostRuntime) -> Made<()> {
    discard(gathered(rt.alloc(), &[3])?);
    Ok(())
}

#[test]
fn holds_a_tree(rt: HostRuntime) -> Made<()> {
    let node = Node::new(rt.alloc(), 3)?;
    assert!(rt; *node.as_tree() == 3);
    assert!(rt; node.into_tree() == 3);
    let held = Node::new(rt.alloc(), 5)?;
    assert!(rt; *held.into_box() == 5);
    Ok(())
}

#[test]
fn holds_trees(rt: HostRuntime) -> Made<()> {
    let alloc = rt.alloc();
    let mut others: Nodes<u8> = Gathers::none(alloc);
    assert!(rt; others.is_empty());
    others.gather(Node::new(alloc, 3)?)?;
    let mut all = Nodes::fronted(alloc, Node::new(alloc, 1)?, others)?;
    assert!(rt; all.len() == 2);
    assert!(rt; all.as_slice() == [1, 3].as_slice());
    assert!(rt; all.pop(alloc)?.is_some());
    assert!(rt; all.into_trees().as_slice() == [1].as_slice());
    Ok(())
}

#[test]
fn hides_trees(rt: HostRuntime) -> Made<()> {
    let hidden = Nodes::new(gathered(rt.alloc(), &[3, 5])?);
    assert!(rt; hidden.len() == 2);
    Ok(())
}
