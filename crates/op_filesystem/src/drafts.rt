//! The drafts of the answers behind the look at the account.
ghost use Rattle.std.specs.Prelude.{◌≡◌, IfOk};
ghost use Rattle.namespace_model.specs.declared.code.Code.TheVariants.{FilesystemAlreadyExists};
ghost use Rattle.namespace_model.specs.Replies.{refusal};
ghost use Rattle.op_filesystem.specs.Filesystems.{IsMade};
ghost use Rattle.path_walk.specs.Answers.{IsAnswered};

use super::root::root_inode;
use head_text::Props;
use inode_tree::{Change, Draft, NodeId};
use namespace_model::Code;
use path_walk::{Call, Parent, answered, closing, refusal, stamped};
use std::alloc::{AllocError, Global};

// The name leads to a filesystem already.
pub(crate) fn already_there(
    alloc: Global,
    call: &Call<'_>,
    reads: Vec<NodeId>,
) -> Result<Draft, AllocError>
    ensures { IfOk result (λ draft.
        IsAnswered call.now.request.now.close (refusal FilesystemAlreadyExists) reads.items draft) }
{
    let reply = refusal(alloc, Code::FilesystemAlreadyExists);
    answered(alloc, reads, reply, call.request.close)
}

// The root comes to stand under its id, and the account leads to it.
pub(crate) fn made(
    alloc: Global,
    call: &Call<'_>,
    props: &Option<Props>,
    at: Parent<'_>,
    id: NodeId,
) -> Result<Draft, AllocError>
    ensures { IfOk result (IsMade call.now props.now at.entry id) }
{
    let mut writes = Vec::new(alloc);
    writes.push(at.id)?;
    writes.push(id)?;
    let mut changes = Vec::new(alloc);
    changes.push(Change::Put(id, root_inode(alloc, call.moment, props)?))?;
    changes.push(Change::Link(at.id, at.name.copy(alloc)?, id))?;
    let reply = stamped(alloc, 201, call.moment)?;
    Ok(Draft {
        reply: closing(alloc, reply, call.request.close)?,
        reads: at.reads,
        writes,
        changes,
        drawn: 1,
    })
}
