// The children of a directory by their names.
use super::making::name;
use inode_tree::{Children, NodeId};
use std::alloc::{AllocError, Global};
use std::test::Fail;

fn add(alloc: Global, children: &mut Children, text: &[u8], id: u64) -> Result<(), AllocError> {
    let name = name(alloc, text)?;
    children.link(alloc, name, NodeId(id))
}

fn remove(alloc: Global, children: &mut Children, text: &[u8]) -> Result<(), AllocError> {
    children.unlink(alloc, &name(alloc, text)?)
}

// `a` is 6, and `m` was 4 and is 8; `z` was there.
fn some(alloc: Global) -> Result<Children, AllocError> {
    let mut children = Children::new(alloc);
    add(alloc, &mut children, b"/abc/m", 4)?;
    add(alloc, &mut children, b"/abc/z", 5)?;
    add(alloc, &mut children, b"/abc/a", 6)?;
    add(alloc, &mut children, b"/abc/m", 8)?;
    remove(alloc, &mut children, b"/abc/z")?;
    children.copy(alloc)
}

fn get(alloc: Global, children: &Children, text: &[u8]) -> Result<Option<NodeId>, AllocError> {
    Ok(children.get(&name(alloc, text)?))
}

// The id behind a name in order.
fn above(alloc: Global, children: &Children, text: &[u8]) -> Result<Option<NodeId>, AllocError> {
    let name = name(alloc, text)?;
    Ok(children.above(Some(&name)).map(|found| found.1))
}

#[test]
fn children_are_found_by_name(rt: HostRuntime) -> Result<(), Fail> {
    let alloc = rt.alloc();
    let children = some(alloc)?;
    assert!(rt; !children.is_empty());
    assert_eq!(rt; get(alloc, &children, b"/abc/m")?, Some(NodeId(8)));
    assert_eq!(rt; get(alloc, &children, b"/abc/z")?, None);
    Ok(())
}

#[test]
fn children_stand_in_order(rt: HostRuntime) -> Result<(), Fail> {
    let alloc = rt.alloc();
    let children = some(alloc)?;
    assert!(rt;
        children
            .above(None)
            .is_some_and(|found| found.1 == NodeId(6))
    );
    assert_eq!(rt; above(alloc, &children, b"/abc/a")?, Some(NodeId(8)));
    assert_eq!(rt; above(alloc, &children, b"/abc/m")?, None);
    Ok(())
}

#[test]
fn at_first_there_are_none(rt: HostRuntime) {
    assert!(rt; Children::new(rt.alloc()).is_empty());
}
