ghost use Rattle.std.specs.Prelude.{◌≡◌, Ok, IfOk, false};
ghost use Rattle.namespace_model.specs.Nodes.{is_directory};
ghost use Rattle.inode_tree.specs.Inodes.{node_of};
ghost use Rattle.file_data.specs.FileRecord.{flush_answer};
ghost use Rattle.namespace_model.specs.Contents.{data_of, refused_flush};
ghost use Rattle.namespace_model.specs.Flush.{flushed_to};
ghost use Rattle.namespace_model.specs.Refusals.{is_unmet, lease_refuses, or_else};
ghost use Rattle.op_data.specs.declared.task.Task.TheVariants as task;
ghost use Rattle.op_data.specs.Tasks.{IsFileOf, IsVerdictOfFile};
ghost use Rattle.path_walk.specs.Edits.{IsVerdict};
ghost use Rattle.path_walk.specs.Calls.{entry_of};

use super::file::flush_refused;
use file_data::FileData;
use inode_tree::{Edit, NodeRef};
use lease_state::after_write;
use namespace_model::Reply;
use path_walk::{Call, Verdict, lease_refuses, stamp, stamped, two_edits, unmet};
use std::alloc::{AllocError, Global};

// What comes of a flush of a file to a position, in bytes; the flag says whether what is staged behind it is kept.
pub(crate) fn flush(
    alloc: Global,
    call: &Call<'_>,
    position: u64,
    retain: bool,
    node: &NodeRef,
    file: &FileData,
) -> Result<Verdict, AllocError>
    requires file { IsFileOf node.now file.now }
    ensures { IfOk result (λ v. IsVerdictOfFile call.now (task.Flush position retain) node.now v) }
{
    if let Some(reply) = refused(alloc, call, position, node, file) {
        return Ok(Verdict::Answer(reply));
    }
    flushed(alloc, call, position, retain, node)
}

// What is asked: the conditions, the lease, and that what is staged lies end to end up to the position.
fn refused(
    alloc: Global,
    call: &Call<'_>,
    position: u64,
    node: &NodeRef,
    file: &FileData,
) -> Option<Reply>
    ensures { result ≡ or_else (is_unmet (entry_of call.now) (node_of node.now))
        (or_else (lease_refuses (entry_of call.now) call.now.request.now.lease (node_of node.now))
        (refused_flush (flush_answer file.now position))) }
{
    if let Some(reply) = unmet(alloc, &call.request.cond, node) {
        return Some(reply);
    }
    if let Some(reply) = lease_refuses(alloc, call.request.lease, call.moment, node) {
        return Some(reply);
    }
    flush_refused(alloc, file.can_flush(position))
}

// The file is flushed and stamped, also where the position is its length.
fn flushed(
    alloc: Global,
    call: &Call<'_>,
    position: u64,
    retain: bool,
    node: &NodeRef,
) -> Result<Verdict, AllocError>
    requires file { is_directory (node_of node.now) ≡ false }
    requires allowed { flush_answer (data_of (node_of node.now).content) position ≡ Ok tt }
    ensures { IfOk result (λ v. IsVerdict (flushed_to (entry_of call.now) call.now.path.now position retain (node_of node.now)) call.now.path.now node.now v) }
{
    let mut meta = node.meta(alloc)?;
    meta.lease = after_write(&meta.lease, call.moment);
    two_edits(
        alloc,
        Edit::Flush(position, retain),
        stamp(meta, call.moment),
        stamped(alloc, 200, call.moment)?,
    )
}
