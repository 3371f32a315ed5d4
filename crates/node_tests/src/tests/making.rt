// Nodes of which stripes are made, and one change at a time.
use acl_text::{AclPair, Id, read_acl, set};
use file_data::{FileData, Piece, SharedPiece};
use head_text::Props;
use inode_tree::{Change, Children, Content, Edit, Inode, Meta, NodeId, Stripe};
use lease_state::Lease;
use namespace_model::Kind;
use path_text::{Name, Path, read_plain};
use std::alloc::{AllocError, Global};

/// The name behind the filesystem of a path.
pub fn name(alloc: Global, text: &[u8]) -> Result<Name, AllocError> {
    match read_plain(alloc, text) {
        Ok(path) => first_name(alloc, &path),
        Err(_) => Err(AllocError),
    }
}

fn first_name(alloc: Global, path: &Path) -> Result<Name, AllocError> {
    match path.names().first() {
        Some(name) => name.copy(alloc),
        None => Err(AllocError),
    }
}

fn acl(alloc: Global) -> Result<AclPair, AllocError> {
    let list = read_acl(alloc, b"user::rwx,group::r-x,other::r--").map_err(|_| AllocError)?;
    set(alloc, &list).map_err(|_| AllocError)
}

fn meta_of(owner: Id, group: Id, acl: AclPair, props: Props, kind: Kind, moment: u64) -> Meta {
    Meta {
        kind,
        owner,
        group,
        acl,
        sticky: false,
        moment,
        number: 7,
        props,
        lease: Lease::Available,
    }
}

/// What is kept of a node that changed at this moment, in milliseconds since 1970, in the entry 7.
pub fn meta(alloc: Global, kind: Kind, moment: u64) -> Result<Meta, AllocError> {
    let owner = Id::superuser(alloc)?;
    let group = Id::superuser(alloc)?;
    let acl = acl(alloc)?;
    let props = Props::none(alloc);
    Ok(meta_of(owner, group, acl, props, kind, moment))
}

fn inode(meta: Meta, content: Content) -> Inode {
    Inode { meta, content }
}

/// Enters one change.
pub fn enter(
    alloc: Global,
    stripe: &mut Stripe,
    change: Change,
    number: u64,
) -> Result<(), AllocError> {
    let changes = [change];
    stripe.reserve(alloc, &changes)?;
    stripe.apply(&changes, number);
    Ok(())
}

/// Puts a directory without children, of the moment 1.
pub fn put_directory(
    alloc: Global,
    stripe: &mut Stripe,
    id: u64,
    number: u64,
) -> Result<(), AllocError> {
    let meta = meta(alloc, Kind::Directory, 1)?;
    let made = inode(meta, Content::Directory(Children::new(alloc)));
    enter(alloc, stripe, Change::Put(NodeId(id), made), number)
}

/// Puts an empty file, of the moment 1.
pub fn put_file(
    alloc: Global,
    stripe: &mut Stripe,
    id: u64,
    number: u64,
) -> Result<(), AllocError> {
    let meta = meta(alloc, Kind::File, 1)?;
    let made = inode(meta, Content::File(FileData::new(alloc)));
    enter(alloc, stripe, Change::Put(NodeId(id), made), number)
}

/// Gives the directory a child of this name.
pub fn link(
    alloc: Global,
    stripe: &mut Stripe,
    id: u64,
    text: &[u8],
    child: u64,
) -> Result<(), AllocError> {
    let name = name(alloc, text)?;
    enter(
        alloc,
        stripe,
        Change::Link(NodeId(id), name, NodeId(child)),
        2,
    )
}

/// Takes the child of this name away.
pub fn unlink(alloc: Global, stripe: &mut Stripe, id: u64, text: &[u8]) -> Result<(), AllocError> {
    let name = name(alloc, text)?;
    let change = Change::Unlink(NodeId(id), name).copy(alloc)?;
    enter(alloc, stripe, change, 3)
}

/// Changes what is kept of a node, and with `stamps` gives it the number of the entry.
pub fn set_meta(
    alloc: Global,
    stripe: &mut Stripe,
    id: u64,
    kind: Kind,
    stamps: bool,
) -> Result<(), AllocError> {
    let meta = meta(alloc, kind, 2)?;
    enter(
        alloc,
        stripe,
        Change::Edit(NodeId(id), Edit::Meta(meta, stamps)),
        13,
    )
}

/// Stages bytes at the start of a file.
pub fn stage(
    alloc: Global,
    stripe: &mut Stripe,
    id: u64,
    bytes: Vec<u8>,
) -> Result<(), AllocError> {
    let piece = SharedPiece::new(alloc, Piece::new(bytes))?;
    let edit = Edit::Stage(0, piece).copy(alloc)?;
    enter(alloc, stripe, Change::Edit(NodeId(id), edit), 3)
}

/// Takes what is staged below a position into the file.
pub fn flush(alloc: Global, stripe: &mut Stripe, id: u64, position: u64) -> Result<(), AllocError> {
    enter(
        alloc,
        stripe,
        Change::Edit(NodeId(id), Edit::Flush(position, false)),
        3,
    )
}

/// Takes a node away.
pub fn drop_node(alloc: Global, stripe: &mut Stripe, id: u64) -> Result<(), AllocError> {
    enter(alloc, stripe, Change::Drop(NodeId(id)), 17)
}

/// The number and the moment of a node, whether it is a directory, and how many bytes or children up to 2 it has.
pub fn look(stripe: &Stripe, id: u64) -> Result<Option<(u64, u64, bool, u64)>, AllocError> {
    let Some(node) = stripe.node(NodeId(id))? else {
        return Ok(None);
    };
    let moment = node.inode().meta.moment;
    Ok(Some(match &node.inode().content {
        Content::File(data) => (node.number(), moment, false, data.len()),
        Content::Directory(children) => (node.number(), moment, true, count(children)),
    }))
}

fn count(children: &Children) -> u64 {
    match children.above(None) {
        None => 0,
        Some((first, _)) => match children.above(Some(first)) {
            None => 1,
            Some(_) => 2,
        },
    }
}

/// Where a name leads from a directory of the stripe.
pub fn child(
    alloc: Global,
    stripe: &Stripe,
    id: u64,
    text: &[u8],
) -> Result<Option<NodeId>, AllocError> {
    let name = name(alloc, text)?;
    let Some(node) = stripe.node(NodeId(id))? else {
        return Ok(None);
    };
    Ok(match &node.inode().content {
        Content::Directory(children) => children.get(&name),
        Content::File(_) => None,
    })
}
