//! The data of a file that was looked at, and the refusals by what they don't let in.
ghost use Rattle.std.specs.Prelude.{◌≡◌, true, IsNone, IfSome};
ghost use Rattle.inode_tree.specs.Inodes.{node_of};
ghost use Rattle.namespace_model.specs.Contents.{refused_staging, refused_flush};
ghost use Rattle.namespace_model.specs.Nodes.{is_directory};
ghost use Rattle.op_data.specs.Tasks.{IsFileOf};

use file_data::{DataFault, FileData};
use inode_tree::{Content, NodeRef};
use namespace_model::{Code, Reply};
use path_walk::refusal;
use std::alloc::Global;

// The data of a file; a directory has none.
pub(crate) fn file_in(node: &NodeRef) -> Option<&FileData>
    ensures some { IfSome result (λ f. IsFileOf node.now f.now) }
    ensures none { IsNone result → is_directory (node_of node.now) ≡ true }
{
    match &node.inode().content {
        Content::Directory(_) => None,
        Content::File(file) => Some(file),
    }
}

// The refusal of a body that can't be staged; staging has no other fault.
pub(crate) fn staging_refused(alloc: Global, answer: Result<(), DataFault>) -> Option<Reply>
    ensures { result ≡ refused_staging answer }
{
    match answer {
        Ok(()) => None,
        Err(DataFault::BelowLength) => Some(refusal(alloc, Code::PositionBelowLength)),
        Err(DataFault::TooLarge) => Some(refusal(alloc, Code::FileTooLarge)),
        Err(_) => None,
    }
}

// The refusal of a flush, whatever its fault.
pub(crate) fn flush_refused(alloc: Global, answer: Result<(), DataFault>) -> Option<Reply>
    ensures { result ≡ refused_flush answer }
{
    match answer {
        Ok(()) => None,
        Err(_) => Some(refusal(alloc, Code::InvalidFlushPosition)),
    }
}
