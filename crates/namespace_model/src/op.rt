ghost use Rattle.std.specs.Prelude.{◌≡◌, IfOk};

use super::code::Code;
use acl_text::{AclList, Id, ModeBits, Perm, RemoveList};
use file_data::Piece;
use head_text::{Props, Range};
use lease_state::{AppendLease, LeaseAction};
use path_text::Path;
use std::alloc::{AllocError, Global};

/// Whether a node is a file or a directory.
#[derive(Clone, Copy, Debug, PartialEq, Eq)]
pub enum Kind {
    File,
    Directory,
}

/// What a batch makes of each node's access control lists.
#[derive(Drop)]
pub enum BatchChange {
    /// The lists are those of these entries alone.
    Set(AclList),
    /// These entries replace what they name, or are added.
    Modify(AclList),
    /// The entries of these go, but for those of the owner, the owning group and the others.
    Remove(RemoveList),
}

impl BatchChange {
    /// An equal change. The one error is want of memory.
    pub fn copy(&self, alloc: Global) -> Result<BatchChange, AllocError>
        ensures { IfOk result (λ change. change ≡ self.now) }
    {
        Ok(match self {
            BatchChange::Set(list) => BatchChange::Set(list.copy(alloc)?),
            BatchChange::Modify(list) => BatchChange::Modify(list.copy(alloc)?),
            BatchChange::Remove(list) => BatchChange::Remove(list.copy(alloc)?),
        })
    }
}

/// What a request asks for: the Filesystem and Path calls of Microsoft's REST reference for ADLS Gen2. Positions are bytes, sizes of
/// pages and batches are counts of nodes.
#[derive(Drop)]
pub enum Op {
    /// A page of the filesystems whose names begin with a prefix.
    ListFilesystems {
        prefix: Piece,
        token: Option<Path>,
        max: u32,
    },
    /// Make a filesystem. The path is its root.
    CreateFilesystem {
        path: Path,
        props: Option<Props>,
    },
    /// The properties of a filesystem.
    GetFilesystem {
        path: Path,
    },
    /// Replace the properties of a filesystem.
    SetFilesystem {
        path: Path,
        props: Props,
    },
    /// Take a filesystem away with all that is in it.
    DeleteFilesystem {
        path: Path,
    },
    /// A page of what is in a directory, or below it.
    List {
        dir: Path,
        recursive: bool,
        token: Option<Path>,
        max: u32,
    },
    /// Make a file or a directory, and the directories on the way to it.
    Create {
        path: Path,
        kind: Kind,
        permissions: Option<ModeBits>,
        umask: Option<ModeBits>,
        props: Option<Props>,
    },
    /// Move a file or a directory with all that is below it.
    Rename {
        path: Path,
        source: Path,
        props: Option<Props>,
    },
    /// The bytes of a file, or a range of them.
    Read {
        path: Path,
        range: Option<Range>,
    },
    /// The properties of a node; `status` asks for the system's ones alone.
    GetProperties {
        path: Path,
        status: bool,
    },
    /// The owner, the group and the access control lists of a node.
    GetAccess {
        path: Path,
    },
    /// Whether the caller has these permissions on a node.
    CheckAccess {
        path: Path,
        want: Perm,
    },
    /// Stage the body at a position of a file. With `flush` what is staged up to its end is then taken into the file, and what is staged behind
    /// it is kept where `retain` is true. `action` is what is done with the lease.
    Append {
        path: Path,
        position: u64,
        flush: bool,
        retain: bool,
        action: AppendLease,
    },
    /// Take what is staged below a position into the file.
    Flush {
        path: Path,
        position: u64,
        retain: bool,
    },
    /// Replace the properties of a node.
    SetProperties {
        path: Path,
        props: Props,
    },
    /// Set the owner, the group, and the permissions or the access control lists of a node.
    SetAccess {
        path: Path,
        owner: Option<Id>,
        group: Option<Id>,
        permissions: Option<ModeBits>,
        acl: Option<AclList>,
    },
    /// Change the access control lists of a node and of all that is below it, so many at a time.
    SetAccessRecursive {
        path: Path,
        change: BatchChange,
        token: Option<Path>,
        max: u32,
        force: bool,
    },
    /// An action on the lease of a node.
    Lease {
        path: Path,
        action: LeaseAction,
    },
    /// Take a file or a directory away; with `recursive` also a directory that is not empty.
    Delete {
        path: Path,
        recursive: bool,
    },
    /// Nothing: the request was refused when it was decoded.
    Refused(Code),
}
