//! The root of a new filesystem.
ghost use Rattle.std.specs.Prelude.{◌≡◌, [], IfOk, unwrap_or};
ghost use Rattle.namespace_model.specs.CreateFilesystem.{root_access};
ghost use Rattle.op_filesystem.specs.Filesystems.{root_inode};

use acl_text::{AclPair, Id, ModeBits, Perm};
use head_text::Props;
use inode_tree::{Children, Content, Inode, Meta};
use lease_state::Lease;
use namespace_model::Kind;
use std::alloc::{AllocError, Global};

// The access list of `rwxr-x---`, and no default list.
fn root_access(alloc: Global) -> Result<AclPair, AllocError>
    ensures { IfOk result (λ pair. pair ≡ root_access) }
{
    let mode = ModeBits {
        sticky: false,
        owner: Perm::ALL,
        group: Perm::READ_EXECUTE,
        other: Perm::NONE,
    };
    AclPair::of_mode(alloc, &mode)
}

// The properties that were given, or none.
fn root_props(alloc: Global, props: &Option<Props>) -> Result<Props, AllocError>
    ensures { IfOk result (λ given. given ≡ unwrap_or props.now []) }
{
    match props {
        Some(props) => props.copy(alloc),
        None => Ok(Props::none(alloc)),
    }
}

// The root of a new filesystem, which is the superuser's, before it has a number.
pub(crate) fn root_inode(
    alloc: Global,
    moment: u64,
    props: &Option<Props>,
) -> Result<Inode, AllocError>
    ensures { IfOk result (λ inode. inode ≡ root_inode moment props.now) }
{
    Ok(Inode {
        meta: Meta {
            kind: Kind::Directory,
            owner: Id::superuser(alloc)?,
            group: Id::superuser(alloc)?,
            acl: root_access(alloc)?,
            sticky: false,
            moment,
            number: 0,
            props: root_props(alloc, props)?,
            lease: Lease::Available,
        },
        content: Content::Directory(Children::new(alloc)),
    })
}
