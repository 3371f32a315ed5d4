ghost use Rattle.std.specs.Prelude.{◌≡◌, take, IfOk};

use std::alloc::{AllocError, Global};
use std::marker::Model;

/// The id of a node. Its stripe is the remainder by 64; the account has the id 0.
#[derive(Clone, Copy, Debug, PartialEq, Eq)]
pub struct NodeId(pub u64);

/// Ids in an order. A contract sees the list of them.
#[derive(Debug, Drop)]
pub struct NodeIds {
    ids: Vec<NodeId>,
}

impl Model for NodeIds {
    ghost use Rattle.std.specs.Prelude.{List};
    ghost use Rattle.inode_tree.specs.declared.id.NodeId.{NodeId};

    ghost Value = { List NodeId };

    ghost view = { λ n. n.ids.items };
}

impl NodeIds {
    /// Keeps the ids that it is given.
    pub fn new(ids: Vec<NodeId>) -> NodeIds
        ensures { result ≡ ids.items }
    {
        NodeIds { ids }
    }

    /// The ids.
    pub fn items(&self) -> &[NodeId]
        ensures { result.now ≡ self.now }
    {
        self.ids.as_slice()
    }

    /// The ids, without a copy.
    pub fn into_items(self) -> Vec<NodeId>
        ensures { result.items ≡ self }
    {
        self.ids
    }

    /// Another list with the same ids. The one error is want of memory.
    pub fn copy(&self, alloc: Global) -> Result<NodeIds, AllocError>
        ensures { IfOk result (λ ids. ids ≡ self.now) }
    {
        Ok(NodeIds {
            ids: copied_ids(alloc, self.ids.as_slice())?,
        })
    }
}

fn copied_ids(alloc: Global, ids: &[NodeId]) -> Result<Vec<NodeId>, AllocError>
    ensures { IfOk result (λ copied. copied.items ≡ ids.now) }
{
    let mut copied = Vec::with_capacity(alloc, ids.len())?;
    for id in ids {
        copied.push(*id)?;
    }
    Ok(copied)
}
