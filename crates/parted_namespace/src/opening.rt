//! The account, as it is at the start.
ghost use Rattle.std.specs.Prelude.{◌≡◌, IfOk};
ghost use Rattle.parted_namespace.specs.Opening.{account_inode, account_part};
ghost use Rattle.inode_tree.specs.Inodes.{bare};

use acl_text::{AclPair, Id, ModeBits, Perm};
use head_text::Props;
use inode_tree::{Change, Children, Content, Inode, Meta, NodeId, Stripe};
use lease_state::Lease;
use namespace_model::Kind;
use std::alloc::{AllocError, Global};

// The first stripe, with the account.
pub(crate) fn first_stripe(alloc: Global) -> Result<Stripe, AllocError>
    ensures stripe { IfOk result (λ first. first.stripe ≡ 0) }
    ensures part { IfOk result (λ first. first.part ≡ account_part) }
{
    let mut stripe = Stripe::new(alloc, 0);
    let changes = [Change::Put(NodeId(0), account(alloc)?)];
    stripe.reserve(alloc, &changes)?;
    stripe.apply(&changes, 0);
    Ok(stripe)
}

// The superuser's directory without children, which gives nobody anything.
fn account(alloc: Global) -> Result<Inode, AllocError>
    ensures { IfOk result (λ inode. bare inode ≡ account_inode) }
{
    let none = Perm::NONE;
    let mode = ModeBits {
        sticky: false,
        owner: none,
        group: none,
        other: none,
    };
    Ok(Inode {
        meta: Meta {
            kind: Kind::Directory,
            owner: Id::superuser(alloc)?,
            group: Id::superuser(alloc)?,
            acl: AclPair::of_mode(alloc, &mode)?,
            sticky: false,
            moment: 0,
            number: 0,
            props: Props::none(alloc),
            lease: Lease::Available,
        },
        content: Content::Directory(Children::new(alloc)),
    })
}
