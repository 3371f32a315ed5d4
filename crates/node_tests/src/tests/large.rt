// A file of 12 MiB, at which one looks 4,096 times, is there once.
use super::making::{flush, put_file, stage};
use inode_tree::{Content, NodeId, NodeRef, Stripe};
use std::alloc::{AllocError, Global};
use std::test::Fail;

fn large(alloc: Global) -> Result<Stripe, AllocError> {
    let mut stripe = Stripe::new(alloc, 1);
    put_file(alloc, &mut stripe, 1, 1)?;
    let bytes = vec![in alloc; 7; 12_582_912]?;
    stage(alloc, &mut stripe, 1, bytes)?;
    flush(alloc, &mut stripe, 1, 12_582_912)?;
    Ok(stripe)
}

fn look_once_more(stripe: &Stripe, nodes: &mut Vec<NodeRef>) -> Result<(), AllocError> {
    match stripe.node(NodeId(1))? {
        Some(node) => nodes.push(node.copy()?).map_err(AllocError::from),
        None => Ok(()),
    }
}

fn is_large(node: &NodeRef) -> bool {
    match &node.inode().content {
        Content::File(data) => data.len() == 12_582_912,
        Content::Directory(_) => false,
    }
}

#[test]
fn many_looks_at_a_large_file(rt: HostRuntime) -> Result<(), Fail> {
    let alloc = rt.alloc();
    let stripe = large(alloc)?;
    let mut nodes = Vec::new(alloc);
    for _ in 0..4096 {
        look_once_more(&stripe, &mut nodes)?;
    }
    assert_eq!(rt; nodes.len(), 4096);
    assert!(rt; nodes.iter().all(is_large));
    Ok(())
}
