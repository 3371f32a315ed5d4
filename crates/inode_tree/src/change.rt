ghost use Rattle.std.specs.Prelude.{◌≡◌, IfOk};

use super::id::NodeId;
use super::inode::Inode;
use super::meta::Meta;
use file_data::SharedPiece;
use path_text::Name;
use std::alloc::{AllocError, Global};

/// What becomes of a node that stays where it is.
#[derive(Drop)]
pub enum Edit {
    /// It is this from now on; the flag says whether it gets the number of the entry, and else the number in here stands.
    Meta(Meta, bool),
    /// A piece is staged in a file, at a position in bytes.
    Stage(u64, SharedPiece),
    /// What is staged below a position, in bytes, is taken into the file; the flag says whether the rest is kept.
    Flush(u64, bool),
}

impl Edit {
    /// An equal edit. The one error is want of memory.
    pub fn copy(&self, alloc: Global) -> Result<Edit, AllocError>
        ensures { IfOk result (λ edit. edit ≡ self.now) }
    {
        Ok(match self {
            Edit::Meta(meta, asks) => Edit::Meta(meta.copy(alloc)?, *asks),
            Edit::Stage(position, piece) => Edit::Stage(*position, piece.copy()?),
            Edit::Flush(position, retain) => Edit::Flush(*position, *retain),
        })
    }
}

/// What an entry does to one node. The first id says which node it is, and so which stripe.
#[derive(Drop)]
pub enum Change {
    /// The node is there from now on, with the number of the entry in place of its own. What had the id is replaced.
    Put(NodeId, Inode),
    /// The node goes.
    Drop(NodeId),
    /// A directory has a child from now on. What had the name is replaced.
    Link(NodeId, Name, NodeId),
    /// A name goes from a directory. The node that it led to stays, unless it is dropped.
    Unlink(NodeId, Name),
    /// The node is changed in place.
    Edit(NodeId, Edit),
}

impl Change {
    /// An equal change. The one error is want of memory.
    pub fn copy(&self, alloc: Global) -> Result<Change, AllocError>
        ensures { IfOk result (λ change. change ≡ self.now) }
    {
        Ok(match self {
            Change::Put(id, inode) => Change::Put(*id, inode.copy(alloc)?),
            Change::Drop(id) => Change::Drop(*id),
            Change::Link(id, name, child) => Change::Link(*id, name.copy(alloc)?, *child),
            Change::Unlink(id, name) => Change::Unlink(*id, name.copy(alloc)?),
            Change::Edit(id, edit) => Change::Edit(*id, edit.copy(alloc)?),
        })
    }
}
