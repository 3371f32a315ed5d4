//! New nodes.
ghost use Rattle.std.specs.Prelude.{◌≡◌, Some, IfOk, unwrap_or, []};
ghost use Rattle.namespace_model.specs.Create.{empty_of};
ghost use Rattle.op_create.specs.Creates.{making_of};
ghost use Rattle.op_create.specs.Chains.{maker_of, made_with, new_inode, next_node, own_content};

use acl_check::inherit;
use acl_text::{AclPair, Id, ModeBits};
use file_data::FileData;
use head_text::Props;
use inode_tree::{Children, Content, Inode, Meta};
use lease_state::Lease;
use namespace_model::Kind;
use path_walk::Call;
use std::alloc::{AllocError, Global};

// The node that is asked for.
#[derive(Clone, Copy)]
pub(crate) struct NewNode<'a> {
    pub(crate) kind: Kind,
    pub(crate) permissions: Option<ModeBits>,
    pub(crate) umask: Option<ModeBits>,
    pub(crate) props: &'a Option<Props>,
}

// A node below a directory with this group and these lists, before it has a number: the one that is asked for, or a directory that is
// missing on the way to it.
pub(crate) fn next_inode(
    alloc: Global,
    call: &Call<'_>,
    new: &NewNode<'_>,
    group: &Id,
    acl: &AclPair,
    last: bool,
) -> Result<Inode, AllocError>
    ensures { IfOk result (λ inode. inode ≡ new_inode call.now.moment (next_node (maker_of call.now) (making_of call.now new.now) group.now acl.now last)) }
{
    if last {
        let props = given(alloc, new.props)?;
        return inode_below(alloc, call, new, props, group, acl);
    }
    let directory = NewNode {
        kind: Kind::Directory,
        permissions: None,
        umask: new.umask,
        props: new.props,
    };
    inode_below(alloc, call, &directory, Props::none(alloc), group, acl)
}

// The properties that were given, or none.
fn given(alloc: Global, props: &Option<Props>) -> Result<Props, AllocError>
    ensures { IfOk result (λ given. given ≡ unwrap_or props.now []) }
{
    match props {
        Some(props) => props.copy(alloc),
        None => Ok(Props::none(alloc)),
    }
}

// The caller's node with these properties, and with what it inherits from one with this group and these lists.
fn inode_below(
    alloc: Global,
    call: &Call<'_>,
    new: &NewNode<'_>,
    props: Props,
    group: &Id,
    acl: &AclPair,
) -> Result<Inode, AllocError>
    ensures { IfOk result (λ inode. inode
        ≡ new_inode call.now.moment (made_with call.now.caller.now.id group.now acl.now new.now.kind new.now.permissions new.now.umask props)) }
{
    let (acl, sticky) = inherit(
        alloc,
        acl,
        new.kind,
        new.permissions.as_ref(),
        new.umask.as_ref(),
    )?;
    Ok(Inode {
        meta: Meta {
            kind: new.kind,
            owner: call.caller.id.copy(alloc)?,
            group: group.copy(alloc)?,
            acl,
            sticky,
            moment: call.moment,
            number: 0,
            props,
            lease: Lease::Available,
        },
        content: empty(alloc, new.kind),
    })
}

// What a new node holds of its own.
fn empty(alloc: Global, kind: Kind) -> Content
    ensures { result ≡ own_content (empty_of kind) }
{
    match kind {
        Kind::Directory => Content::Directory(Children::new(alloc)),
        Kind::File => Content::File(FileData::new(alloc)),
    }
}
