ghost use Rattle.std.specs.Prelude.{◌≡◌, IfOk};
ghost use Rattle.inode_tree.specs.Inodes.{bare, numbered};

use super::inode::Inode;
use super::meta::Meta;
use std::alloc::{AllocError, Global};
use std::marker::Model;
use std::sync::Arc;

/// A node at which one looks. It shares the inode, so that neither children nor bytes are copied, and it never changes. A
/// contract sees the inode without its room, with the number that the node has.
#[derive(Drop)]
pub struct NodeRef {
    inode: Arc<Inode>,
    number: u64,
}

impl Model for NodeRef {
    ghost use Rattle.std.specs.Arc.{arc_value};
    ghost use Rattle.std.specs.Coded.{codes};
    ghost use Rattle.inode_tree.specs.Inodes.{BareInode, inode_code, bare, numbered};

    ghost Value = { BareInode };

    ghost coded = { inode_code (Prim.hlevel codes) };

    ghost view = { λ r. numbered r.number (bare (arc_value r.inode)) };
}

impl NodeRef {
    // A node of its own.
    pub(crate) fn new(alloc: Global, inode: Inode) -> Result<NodeRef, AllocError>
        ensures { IfOk result (λ node. node ≡ bare inode) }
    {
        let number = inode.meta.number;
        Ok(NodeRef {
            inode: Arc::new(alloc, inode)?,
            number,
        })
    }

    // The node with another number.
    pub(crate) fn with_number(self, number: u64) -> NodeRef
        ensures { result ≡ numbered number self }
    {
        NodeRef {
            inode: self.inode,
            number,
        }
    }

    // The inode as one that may be changed.
    pub(crate) fn copied_inode(&self, alloc: Global) -> Result<Inode, AllocError>
        ensures { IfOk result (λ inode. bare inode ≡ self.now) }
    {
        let mut inode = self.inode.copy(alloc)?;
        inode.meta.number = self.number;
        Ok(inode)
    }

    /// The number of the entry that made the node or last stamped it.
    pub fn number(&self) -> u64
        ensures { result ≡ self.now.meta.number }
    {
        self.number
    }

    /// The inode. The number in its `meta` may be another one; `number` says which holds.
    pub fn inode(&self) -> &Inode
        ensures { numbered self.now.meta.number (bare result.now) ≡ self.now }
    {
        &self.inode
    }

    /// A copy of the inode's `meta`, with the number that holds. The one error is want of memory.
    pub fn meta(&self, alloc: Global) -> Result<Meta, AllocError>
        ensures { IfOk result (λ meta. meta ≡ self.now.meta) }
    {
        let mut meta = self.inode.meta.copy(alloc)?;
        meta.number = self.number;
        Ok(meta)
    }

    /// One more look at the same node. The one error is that no more of them can be counted.
    pub fn copy(&self) -> Result<NodeRef, AllocError>
        ensures { IfOk result (λ node. node ≡ self.now) }
    {
        Ok(NodeRef {
            inode: Arc::try_clone(&self.inode)?,
            number: self.number,
        })
    }
}
