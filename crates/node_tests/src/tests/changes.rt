// What each change makes of a stripe.
ghost use Rattle.std.specs.Prelude.{◌<◌};

use super::making::{
    child, drop_node, flush, link, look, put_directory, put_file, set_meta, stage, unlink,
};
use inode_tree::{NodeId, Stripe};
use namespace_model::Kind;
use std::alloc::{AllocError, Global};
use std::test::Fail;

// The stripe 3 with a directory, of the entry 11.
fn with_directory(alloc: Global) -> Result<Stripe, AllocError> {
    let mut stripe = Stripe::new(alloc, 3);
    put_directory(alloc, &mut stripe, 3, 11)?;
    Ok(stripe)
}

#[test]
fn a_directory_gets_and_loses_a_child(rt: HostRuntime) -> Result<(), Fail> {
    let alloc = rt.alloc();
    let mut stripe = with_directory(alloc)?;
    assert_eq!(rt; look(&stripe, 3)?, Some((11, 1, true, 0)));
    link(alloc, &mut stripe, 3, b"/abc/a", 5)?;
    assert_eq!(rt; look(&stripe, 3)?, Some((11, 1, true, 1)));
    unlink(alloc, &mut stripe, 3, b"/abc/a")?;
    assert_eq!(rt; look(&stripe, 3)?, Some((11, 1, true, 0)));
    Ok(())
}

#[test]
fn a_node_is_stamped_or_keeps_the_number_it_is_given(rt: HostRuntime) -> Result<(), Fail> {
    let alloc = rt.alloc();
    let mut stripe = with_directory(alloc)?;
    set_meta(alloc, &mut stripe, 3, Kind::Directory, true)?;
    assert_eq!(rt; look(&stripe, 3)?, Some((13, 2, true, 0)));
    set_meta(alloc, &mut stripe, 3, Kind::Directory, false)?;
    assert_eq!(rt; look(&stripe, 3)?, Some((7, 2, true, 0)));
    Ok(())
}

#[test]
fn a_stripe_keeps_its_own_nodes_alone_until_they_go(rt: HostRuntime) -> Result<(), Fail> {
    let alloc = rt.alloc();
    let mut stripe = with_directory(alloc)?;
    put_file(alloc, &mut stripe, 4, 16)?;
    assert_eq!(rt; look(&stripe, 4)?, None);
    drop_node(alloc, &mut stripe, 3)?;
    assert_eq!(rt; look(&stripe, 3)?, None);
    Ok(())
}

// The stripe 0 with a directory, of the entry 1, and a file, of the entry 2.
fn with_both(alloc: Global) -> Result<Stripe, AllocError> {
    let mut stripe = Stripe::new(alloc, 0);
    put_directory(alloc, &mut stripe, 0, 1)?;
    put_file(alloc, &mut stripe, 64, 2)?;
    Ok(stripe)
}

// What changes nothing at a directory: to lose a child that it hasn't, to be a file, to get bytes.
fn idle_at_a_directory(alloc: Global, stripe: &mut Stripe, id: u64) -> Result<(), AllocError> {
    unlink(alloc, stripe, id, b"/abc/a")?;
    set_meta(alloc, stripe, id, Kind::File, true)?;
    stage(alloc, stripe, id, Vec::new(alloc))?;
    flush(alloc, stripe, id, 1)
}

// What changes nothing at a file or at no node: to get or lose a child, to be a directory, no bytes, a flush behind the end.
fn idle_elsewhere(alloc: Global, stripe: &mut Stripe, id: u64) -> Result<(), AllocError> {
    link(alloc, stripe, id, b"/abc/a", 5)?;
    unlink(alloc, stripe, id, b"/abc/a")?;
    set_meta(alloc, stripe, id, Kind::Directory, true)?;
    stage(alloc, stripe, id, Vec::new(alloc))?;
    flush(alloc, stripe, id, 1)
}

fn idle(alloc: Global, stripe: &mut Stripe) -> Result<(), AllocError> {
    idle_at_a_directory(alloc, stripe, 0)?;
    idle_elsewhere(alloc, stripe, 64)?;
    idle_elsewhere(alloc, stripe, 128)?;
    drop_node(alloc, stripe, 128)
}

#[test]
fn changes_that_change_nothing(rt: HostRuntime) -> Result<(), Fail> {
    let alloc = rt.alloc();
    let mut stripe = with_both(alloc)?;
    idle(alloc, &mut stripe)?;
    assert_eq!(rt; look(&stripe, 0)?, Some((1, 1, true, 0)));
    assert_eq!(rt; look(&stripe, 64)?, Some((2, 1, false, 0)));
    assert_eq!(rt; look(&stripe, 128)?, None);
    Ok(())
}

// A stripe with a directory that has this child.
fn with_child(
    alloc: Global,
    stripe: u8,
    id: u64,
    text: &[u8],
    child: u64,
) -> Result<Stripe, AllocError>
    requires { stripe < 64 }
{
    let mut stripe = Stripe::new(alloc, stripe);
    put_directory(alloc, &mut stripe, id, 1)?;
    link(alloc, &mut stripe, id, text, child)?;
    Ok(stripe)
}

// Where a name leads from that directory.
fn leads_to(
    alloc: Global,
    stripe: u8,
    id: u64,
    text: &[u8],
    to: u64,
) -> Result<Option<NodeId>, AllocError>
    requires { stripe < 64 }
{
    let stripe = with_child(alloc, stripe, id, text, to)?;
    child(alloc, &stripe, id, text)
}

// `/data`, `/data/a` and `/data/a/f`, which the first pass makes, have the ids 1, 66 and 131, in the stripes 1, 2 and 3.
#[test]
fn names_lead_along_a_path(rt: HostRuntime) -> Result<(), Fail> {
    let alloc = rt.alloc();
    assert_eq!(rt; leads_to(alloc, 0, 0, b"/abc/data", 1)?, Some(NodeId(1)));
    assert_eq!(rt; leads_to(alloc, 1, 1, b"/abc/a", 66)?, Some(NodeId(66)));
    assert_eq!(rt; leads_to(alloc, 2, 66, b"/abc/f", 131)?, Some(NodeId(131)));
    Ok(())
}

#[test]
fn another_name_leads_nowhere(rt: HostRuntime) -> Result<(), Fail> {
    let alloc = rt.alloc();
    let stripe = with_child(alloc, 2, 66, b"/abc/f", 131)?;
    assert_eq!(rt; child(alloc, &stripe, 66, b"/abc/g")?, None);
    Ok(())
}
