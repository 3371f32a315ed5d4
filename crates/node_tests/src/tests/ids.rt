// Ids of new nodes.
use inode_tree::{Fresh, NodeId, NodeIds};
use std::alloc::{AllocError, Global};
use std::test::Fail;

// The first new nodes of the first pass lie in the stripes 1, 2, 3 and 4.
#[test]
fn ids_of_the_first_pass(rt: HostRuntime) {
    let fresh = Fresh { pass: 0, used: 0 };
    let ids = [fresh.id(0), fresh.id(1), fresh.id(2), fresh.id(3)];
    assert_eq!(rt; ids, [NodeId(1), NodeId(66), NodeId(131), NodeId(196)]);
    assert!(rt; ids.map(|id| id.0 % 64) == [1, 2, 3, 4]);
}

#[test]
fn ids_of_another_pass(rt: HostRuntime) {
    assert_eq!(rt; Fresh { pass: 2, used: 3 }.id(1), NodeId(263));
}

fn three(alloc: Global) -> Result<NodeIds, AllocError> {
    let mut ids = Vec::new(alloc);
    ids.push(NodeId(3))?;
    NodeIds::new(ids).copy(alloc)
}

#[test]
fn a_list_of_ids(rt: HostRuntime) -> Result<(), Fail> {
    let ids = three(rt.alloc())?;
    assert_eq!(rt; ids.items(), [NodeId(3)].as_slice());
    assert_eq!(rt; ids.into_items().len(), 1);
    Ok(())
}
